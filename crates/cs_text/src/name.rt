//! The form of a facet's name.
ghost use Rattle.std.specs.Prelude.{◌≡◌};
ghost use Rattle.std.specs.List.{list_all};
ghost use Rattle.cs_model.specs.Collection.{has_name_form, begins_with_letter, is_name_byte};

use cs_base::MAX_NAME_BYTES;

/// Whether bytes have the form of a facet's name: a letter `a` to `z`, then letters `a` to `z` and digits, at most
/// `MAX_NAME_BYTES` bytes.
pub fn has_name_form(name: &[u8]) -> bool
    ensures { result ≡ has_name_form name.now }
{
    begins_with_letter(name) && (has_name_bytes(name) && name.len() <= MAX_NAME_BYTES)
}

fn begins_with_letter(name: &[u8]) -> bool
    ensures { result ≡ begins_with_letter name.now }
{
    match name.first() {
        Some(b) => b.is_ascii_lowercase(),
        None => false,
    }
}

/// Whether bytes are all letters `a` to `z` and digits.
pub(crate) fn has_name_bytes(name: &[u8]) -> bool
    ensures { result ≡ list_all is_name_byte name.now }
{
    name.iter().all(|b| is_name_byte(*b))
}

fn is_name_byte(b: u8) -> bool
    ensures { result ≡ is_name_byte b }
{
    b.is_ascii_lowercase() || b.is_ascii_digit()
}
