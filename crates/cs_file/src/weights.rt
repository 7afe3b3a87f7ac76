//! The number that stands for the weights of rows in a header.
ghost use Rattle.std.specs.Prelude.{◌≡◌, true};
ghost use Rattle.cs_model_index.specs.WeightsField.{field_of, is_field, three_bytes, weights_of};

use cs_base::{USUAL_WEIGHTS, Weights};

/// How many numbers one byte spells.
const ONE_BYTE: u32 = 1 << 8;

/// How many numbers two bytes spell.
const TWO_BYTES: u32 = 1 << 16;

/// How many numbers three bytes spell.
const THREE_BYTES: u32 = 1 << 24;

/// The number that stands for weights: 0 for those of a collection that names none, and else that of three bytes, the title's first.
#[tactic(auto, unfolding(cs_model_index::specs::WeightsField::field_of))]
pub(crate) fn field_of(weights: Weights) -> u32
    ensures { result ≡ field_of weights }
{
    let number = three_bytes(weights);
    if number == three_bytes(USUAL_WEIGHTS) {
        0
    } else {
        number
    }
}

/// The weights that a number stands for.
pub(crate) fn weights_of(field: u32) -> Weights
    requires { is_field field ≡ true }

    ensures { result ≡ weights_of field }
{
    if field == 0 {
        return USUAL_WEIGHTS;
    }
    Weights {
        title: (field / TWO_BYTES) as u8,
        facet: (field / ONE_BYTE % ONE_BYTE) as u8,
        text: (field % ONE_BYTE) as u8,
    }
}

/// Whether a number stands for some weights.
#[tactic(auto, unfolding(cs_model_index::specs::WeightsField::is_field))]
pub(crate) fn is_field(field: u32) -> bool
    ensures { result ≡ is_field field }
{
    field == 0
        || (field < THREE_BYTES
            && 1 <= field / TWO_BYTES
            && 1 <= field / ONE_BYTE % ONE_BYTE
            && 1 <= field % ONE_BYTE
            && field != three_bytes(USUAL_WEIGHTS))
}

// The number of three bytes, one for each weight, the title's first.
#[tactic(auto, unfolding(cs_model_index::specs::WeightsField::three_bytes))]
fn three_bytes(weights: Weights) -> u32
    ensures { result ≡ three_bytes weights.title weights.facet weights.text }
{
    u32::from(weights.title) * TWO_BYTES
        + u32::from(weights.facet) * ONE_BYTE
        + u32::from(weights.text)
}
