//! Gap codes: numbers below 2^32 in one to five bytes, small numbers in few.
//!
//! The code of a number stands in `specs/index/GapCode.antt` of `cs_base`. What a reader finds where a
//! code is wanted stands in `specs/Reading.antt`. `laws` has what holds of all codes.
#![tactic(auto)]

mod gap;
pub mod laws;

pub use gap::{Gap, next_gap, put_gap, with_gap};
