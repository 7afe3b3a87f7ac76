//! Counts among the parameters, as in `h=20`.
ghost use Rattle.std.specs.Prelude.{◌≡◌, true, false, Some, IfOk, OnOk, IfErr, IfSome, IfNone};
ghost use Rattle.cs_model.specs.Digits.{number_of};
ghost use Rattle.cs_model.specs.Parameters.{parameter, is_count, count_of};
ghost use Rattle.cs_query.specs.ParamNames.{param_name};
ghost use Rattle.cs_http.specs.Refusing.{IsRefusedBy};

use crate::first::parameter;
use cs_base::MAX_COUNT_DIGITS;
use cs_query::{Param, ReqFault};
use cs_text::{has_digits, number_of};
use std::alloc::Global;

/// The count that a parameter asks, at most `most`, or the default where there is no such parameter.
pub(crate) fn count(
    alloc: Global,
    params: &[u8],
    which: Param,
    default: u32,
    most: u32,
) -> Result<u32, ReqFault>
    ensures accepted { OnOk result (is_count most (parameter (param_name which) params.now) ≡ true) }
    ensures ok { IfOk result (λ n. n ≡ count_of default (parameter (param_name which) params.now)) }
    ensures err { IfErr result (λ e. IsRefusedBy which (is_count most (parameter (param_name which) params.now)) e) }
{
    let value = parameter(alloc, params, which.name())?;
    let Some(value) = value else {
        return Ok(default);
    };
    match read_count(value.as_str().as_bytes(), most) {
        Some(count) => Ok(count),
        None => Err(ReqFault::BadParam { which }),
    }
}

// The number that at most `MAX_COUNT_DIGITS` digits spell, where it is at most `most`.
fn read_count(text: &[u8], most: u32) -> Option<u32>
    ensures some { IfSome result (λ n. (is_count most (Some text.now) ≡ true) × (n ≡ number_of text.now)) }
    ensures none { IfNone result (is_count most (Some text.now) ≡ false) }
{
    if !has_digits(text, MAX_COUNT_DIGITS) {
        return None;
    }
    let number = number_of(text);
    if number > most {
        return None;
    }
    Some(number)
}
