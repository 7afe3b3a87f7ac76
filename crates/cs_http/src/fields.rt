//! What the fields of a request head say.
ghost use Rattle.std.specs.Prelude.{◌≡◌, ◌==◌, length, All, reverse, codes};
ghost use Rattle.std.specs.List.{list_any, list_all};
ghost use Rattle.std.specs.Str.{str_eq_ignore_ascii_case};
ghost use Rattle.httparse.specs.Grammar.{skip_ows, trim_ows};
ghost use Rattle.httparse.specs.Grammar.{is_ows as is_white_space};
ghost use Rattle.httparse.specs.Spans.{IsHeaderWithin, header_bytes};
ghost use Rattle.cs_model_serving.specs.Heads.{announces, is_closing};
ghost use Rattle.cs_model_serving.specs.Heads.{is_zero as is_zero_value, says_close as has_close};

use httparse::spans::HeaderSpan;

/// Whether a field announces a body.
pub(crate) fn announces_body(bytes: &[u8], fields: &[HeaderSpan]) -> bool
    requires within { All (IsHeaderWithin (length bytes.now)) fields.now }

    ensures { result ≡ list_any (λ f. announces (header_bytes bytes.now f)) fields.now }
{
    fields.iter().any(|f| announces(bytes, f))
}

/// Whether a field Connection says that the connection is to be closed.
pub(crate) fn fields_say_close(bytes: &[u8], fields: &[HeaderSpan]) -> bool
    requires within { All (IsHeaderWithin (length bytes.now)) fields.now }

    ensures { result ≡ list_any (λ f. is_closing (header_bytes bytes.now f)) fields.now }
{
    fields.iter().any(|f| is_closing(bytes, f))
}

fn announces(bytes: &[u8], field: &HeaderSpan) -> bool
    requires within { IsHeaderWithin (length bytes.now) field.now }

    ensures { result ≡ announces (header_bytes bytes.now field.now) }
{
    let name = field.name.of(bytes);
    name.eq_ignore_ascii_case(b"transfer-encoding")
        || name.eq_ignore_ascii_case(b"content-length") && !is_zero(field.value.of(bytes))
}

// Whether the value is one or more digits 0.
fn is_zero(value: &[u8]) -> bool
    ensures { result ≡ is_zero_value value.now }
{
    if value.is_empty() {
        return false;
    }
    are_zeros(value)
}

fn are_zeros(value: &[u8]) -> bool
    ensures { result ≡ list_all (λ b. b == 48) value.now }
{
    value.iter().all(|&b| b == b'0')
}

fn is_closing(bytes: &[u8], field: &HeaderSpan) -> bool
    requires within { IsHeaderWithin (length bytes.now) field.now }

    ensures { result ≡ is_closing (header_bytes bytes.now field.now) }
{
    let name = field.name.of(bytes);
    name.eq_ignore_ascii_case(b"connection") && has_close(field.value.of(bytes))
}

// Whether one of the pieces between commas is the word `close`.
fn has_close(value: &[u8]) -> bool
    ensures { result ≡ has_close value.now }
{
    value.split(|&b| b == b',').any(|piece| is_close(piece))
}

fn is_close(piece: &[u8]) -> bool
    ensures { result ≡ str_eq_ignore_ascii_case (trim_ows piece.now) (codes "close") }
{
    trimmed(piece).eq_ignore_ascii_case(b"close")
}

// The bytes without spaces and tabs at both ends.
#[tactic(auto, unfolding(httparse::specs::Grammar::trim_ows))]
fn trimmed(bytes: &[u8]) -> &[u8]
    ensures { result.now ≡ trim_ows bytes.now }
{
    skip_back(skip_front(bytes))
}

fn skip_front(bytes: &[u8]) -> &[u8]
    ensures { result.now ≡ skip_ows bytes.now }
{
    for i in 0..bytes.len() {
        if !is_white_space(bytes[i]) {
            return &bytes[i..];
        }
    }
    &[]
}

fn skip_back(bytes: &[u8]) -> &[u8]
    ensures { result.now ≡ reverse (skip_ows (reverse bytes.now)) }
{
    for i in (0..bytes.len()).rev() {
        if !is_white_space(bytes[i]) {
            return &bytes[..i + 1];
        }
    }
    &[]
}

fn is_white_space(byte: u8) -> bool
    ensures { result ≡ is_white_space byte }
{
    byte == b'\t' || byte == b' '
}
