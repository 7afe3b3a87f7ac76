//! The value of a parameter.
ghost use Rattle.std.specs.Prelude.{◌≡◌, IfOk};
ghost use Rattle.std.specs.Option.{option_map};
ghost use Rattle.std.specs.String.{string_bytes};
ghost use Rattle.cs_model.specs.Parameters.{parameter};

use cs_base::Memory;
use form_urlencoded::parse;
use std::alloc::Global;

/// The decoded value of the first parameter of this name.
#[tactic(auto, unfolding(cs_model::specs::Parameters::parameter))]
pub(crate) fn parameter(alloc: Global, params: &[u8], name: &str) -> Result<Option<String>, Memory>
    ensures ok { IfOk result (λ o. option_map string_bytes o ≡ parameter name.now params.now) }
{
    for pair in parse(alloc, params) {
        let (key, value) = pair?;
        if key.as_str() == name {
            return Ok(Some(value.into_owned(alloc)?));
        }
    }
    Ok(None)
}
