//! What a character is to the grammar.
ghost use Rattle.std.specs.Prelude.{◌≡◌};
ghost use Rattle.cs_model.specs.Tokens.{class_of};

use cs_model::Class;
use cs_text::is_word_char;

/// What a character of a key text is to the grammar.
pub fn class_of(c: char) -> Class
    ensures { result ≡ class_of c }
{
    if is_word_char(c) {
        Class::Letter
    } else if c == '.' {
        Class::Dot
    } else if c == '-' || c == '_' || c == '\'' {
        Class::Joiner
    } else if c == '$' {
        Class::Dollar
    } else if c == '|' {
        Class::Bar
    } else if c == ':' {
        Class::Colon
    } else if c == '[' {
        Class::Open
    } else if c == ']' {
        Class::Close
    } else {
        Class::Other
    }
}
