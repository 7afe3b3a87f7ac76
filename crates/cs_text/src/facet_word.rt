//! The words of facets.
ghost use Rattle.std.specs.Prelude.{◌≡◌, IfOk};
ghost use Rattle.cs_model.specs.Collection.{named};

use cs_base::{Memory, Text};
use std::alloc::Global;

/// The word `:name:value` of a facet.
pub fn named_word(alloc: Global, name: &str, value: &str) -> Result<Text, Memory>
    ensures { IfOk result (λ t. t ≡ named name.now value.now) }
{
    let mut word = String::with_capacity(alloc, (name.len() + value.len()).saturating_add(2))?;
    word.push(':')?;
    word.push_str(name)?;
    word.push(':')?;
    word.push_str(value)?;
    Ok(Text::from_string(word))
}
