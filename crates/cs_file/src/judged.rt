//! Rules that are tried, and numbers that are read.
ghost use Rattle.std.specs.Prelude.{◌≡◌, ◌+◌, ◌≤◌, false, length};
ghost use Rattle.cs_model.specs.First.{unless};
ghost use Rattle.cs_model_index.specs.FileRules.{tried};
ghost use Rattle.cs_model_index.specs.Sections.{number_at};
ghost use Rattle.cs_file.specs.CallAnswers.{is_read_of_open};
ghost use Rattle.cs_file.specs.Opening.{Judges};

use crate::fault::OpenFault;

/// The place where something doesn't hold.
pub(crate) fn unless(holds: bool, at: u64) -> Option<u64>
    ensures { result ≡ unless holds at }
{
    if holds { None } else { Some(at) }
}

/// The rule is broken at the place, if there is one.
pub(crate) fn tried(rule: u8, place: Option<u64>) -> Result<(), OpenFault>
    ensures judged { Judges (tried rule place) result }
    ensures unread { is_read_of_open result ≡ false }
{
    match place {
        Some(at) => Err(OpenFault::Damaged { rule, at }),
        None => Ok(()),
    }
}

/// The number of four bytes at a place.
#[tactic(auto, unfolding(cs_model_index::specs::Sections::number_at))]
pub(crate) fn number_at(bytes: &[u8], at: usize) -> u32
    requires { at + 4 ≤ length bytes.now }

    ensures { result ≡ number_at bytes.now at }
{
    let text = &bytes[at..at + 4];
    u32::from_be_bytes([text[0], text[1], text[2], text[3]])
}
