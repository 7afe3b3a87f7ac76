//! Numbers that digits spell, as in parameters and on the command line.
ghost use Rattle.std.specs.Prelude.{◌≡◌, ◌≤◌, IsTrue, length};
ghost use Rattle.std.specs.List.{list_all};
ghost use Rattle.std.specs.Char.{is_ascii_digit};
ghost use Rattle.cs_model.specs.Digits.{has_digits, number_of};

/// Whether bytes are one ASCII digit or more, at most `digits` of them.
pub fn has_digits(bytes: &[u8], digits: usize) -> bool
    ensures { result ≡ has_digits digits bytes.now }
{
    if bytes.is_empty() || bytes.len() > digits {
        return false;
    }
    all_digits(bytes)
}

fn all_digits(bytes: &[u8]) -> bool
    ensures { result ≡ list_all is_ascii_digit bytes.now }
{
    bytes.iter().all(|b| b.is_ascii_digit())
}

/// The number that at most seven ASCII digits spell, leading zeros read; 0 for none.
pub fn number_of(bytes: &[u8]) -> u32
    requires short { length bytes.now ≤ 7 }
    requires digits { IsTrue (list_all is_ascii_digit bytes.now) }

    ensures { result ≡ number_of bytes.now }
{
    let mut number = 0;
    for byte in bytes {
        number = number * 10 + u32::from(*byte - b'0');
    }
    number
}
