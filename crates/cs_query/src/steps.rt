//! The reader with one character more: what a character of each class does behind each tail.
ghost use Rattle.std.specs.Prelude.{encode_utf8};
ghost use Rattle.cs_model.specs.Tokens.{grown, with_next};
ghost use Rattle.cs_query.specs.Following.{JudgesNext, held};

use crate::beginnings::{
    begin_bar, begin_gap, begin_run, begin_value, begin_word, exact_value, exact_word,
};
use crate::brackets::{begin_join, end_join};
use crate::classes::class_of;
use crate::fault::Stop;
use crate::growing::{grow_gap, grow_run, grow_value, grow_word};
use crate::reader::{Reader, Tail};
use cs_model::Class;
use std::alloc::Global;

/// The reader after one character more.
pub fn step(alloc: Global, reader: Reader, c: char) -> Result<Reader, Stop>
    ensures { JudgesNext reader (λ rest. with_next c (held reader.tail rest)) result }
{
    step_by_class(alloc, class_of(c), c, reader)
}

/// The reader after a character of a class.
fn step_by_class(alloc: Global, class: Class, c: char, reader: Reader) -> Result<Reader, Stop>
    ensures { JudgesNext reader (λ rest. grown class (encode_utf8 c) (held reader.tail rest)) result }
{
    let Reader { tail, gathered } = reader;
    match (class, tail) {
        (Class::Letter, Tail::Word { tie, text }) => grow_word(c, tie, text, gathered),
        (Class::Letter, Tail::Value { tie, name, text }) => grow_value(
            c, tie, name, text, gathered,
        ),
        (Class::Joiner, Tail::Value { tie, name, text }) => grow_value(
            '_', tie, name, text, gathered,
        ),
        (Class::Dot, Tail::Run { spot, text }) => grow_run(c, spot, text, gathered),
        (Class::Joiner, Tail::Run { spot, text }) => grow_run(c, spot, text, gathered),
        (Class::Other, Tail::Gap(bytes)) => grow_gap(c, bytes, gathered),
        (Class::Dollar, Tail::Word { tie, text }) => exact_word(alloc, tie, text, gathered),
        (Class::Dollar, Tail::Value { tie, name, text }) => exact_value(
            alloc, tie, name, text, gathered,
        ),
        (Class::Colon, Tail::Word { tie, text }) => begin_value(alloc, tie, text, gathered),
        (Class::Open, Tail::Word { tie, text }) => begin_join(alloc, tie, text, gathered),
        (Class::Letter, Tail::Dollar | Tail::Close)
        | (Class::Dot | Class::Joiner | Class::Other, Tail::Bar)
        | (Class::Bar, Tail::Start | Tail::Gap(_) | Tail::Run { .. } | Tail::Bar | Tail::Open)
        | (Class::Dollar | Class::Colon | Class::Open, _) => Err(Stop::Bad),
        (Class::Letter, tail) => begin_word(alloc, c, tail, gathered),
        (Class::Dot | Class::Joiner, tail) => begin_run(alloc, c, tail, gathered),
        (Class::Other, tail) => begin_gap(alloc, c, tail, gathered),
        (Class::Bar, tail) => begin_bar(alloc, tail, gathered),
        (Class::Close, tail) => end_join(alloc, tail, gathered),
    }
}
