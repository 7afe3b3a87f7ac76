//! The calls that are timed by hand: `timed WHAT TIMES GIVEN GIVEN` runs one of them TIMES times.
//!
//! WHAT is `words` or `collection`, of the file GIVEN; `decode`, of a block of so many rows whose documents are 0, GIVEN
//! or twice GIVEN apart; or the name of a call on columns, of so many posts and so many others. The scripts in `bench/`
//! run it. It prints a number that depends on each answer, to compare it with another program's.
#![tactic(auto)]

mod block;
mod call;
mod input;
mod numbers;
mod texts;

use crate::block::decoded;
use crate::call::called;
use crate::texts::{counted, found};
use cs_base::Memory;
use std::alloc::AllocError;
use std::{env, fs, io};

fn main(rt: HostRuntime) -> io::Result<()> {
    let mut given = env::args(&rt)?.skip(1);
    let what = given.next().unwrap_or(String::new(rt.alloc()));
    let times = number(given.next());
    let told = match what.as_str() {
        "words" => {
            let name = given.next().unwrap_or(String::new(rt.alloc()));
            let text = fs::read_to_string(&rt, name.as_str())?;
            found(rt.alloc(), text.as_str(), times)
        }
        "collection" => {
            let name = given.next().unwrap_or(String::new(rt.alloc()));
            let bytes = fs::read(&rt, name.as_str())?;
            counted(rt.alloc(), &bytes, times)
        }
        "decode" => decoded(
            rt.alloc(),
            number(given.next()),
            number(given.next()),
            times,
        ),
        name => called(
            rt.alloc(),
            name,
            number(given.next()),
            number(given.next()),
            times,
        ),
    };
    match told {
        Ok(Some(told)) => println!(rt; "{told}"),
        Ok(None) => println!(rt; "nothing was run"),
        Err(Memory) => Err(AllocError.into()),
    }
}

// The number that a word tells, else 1.
fn number(word: Option<String>) -> u32 {
    match word {
        Some(word) => word.as_str().parse::<u32>().unwrap_or(1),
        None => 1,
    }
}
