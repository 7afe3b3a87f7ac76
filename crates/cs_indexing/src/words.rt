//! The command line's words, read by a table.
ghost use Rattle.std.specs.Prelude.{◌≡◌, ◌≤◌, true, map, ◌&&◌, nat_lt, nat_le};
ghost use Rattle.std.specs.Option.{ForSome, option_map};
ghost use Rattle.std.specs.String.{string_bytes};
ghost use Rattle.cs_base.specs.declared.content.limits.TheConstants.{MAX_PORT_DIGITS, MAX_PORT, MAX_CONNECTIONS_DIGITS, MAX_CONNECTIONS, MAX_TRIAL_DIGITS, MAX_TRIAL};
ghost use Rattle.cs_model.specs.Digits.{number_of};
ghost use Rattle.cs_indexing.specs.CommandLine.{command_of, two_words, three_words, import_words, serve_words, trial_words, is_number};
ghost use Rattle.cs_indexing.specs.Views.{HasNumbers, seen_command};

use cs_base::{
    MAX_CONNECTIONS, MAX_CONNECTIONS_DIGITS, MAX_PORT, MAX_PORT_DIGITS, MAX_TRIAL, MAX_TRIAL_DIGITS,
};
use cs_text::{has_digits, number_of};

/// The form of a source, which an index file is made of.
#[derive(Clone, Copy, Debug, PartialEq, Eq)]
pub enum Form {
    /// A collection.
    Collection,
    /// A table of comma-separated values.
    Csv,
    /// Lines of JSON.
    JsonLines,
}

/// How the hits of replies are shown.
#[derive(Clone, Copy, Debug, PartialEq, Eq)]
pub enum HitForm {
    /// With their titles alone.
    Titled,
    /// With an excerpt of each one's document too.
    Excerpted,
}

/// What the words ask for.
#[derive(Clone, Copy, Debug, PartialEq, Eq)]
pub enum Command<'a> {
    /// `build COLLECTION INDEX`, `import csv SOURCE INDEX` or `import jsonl SOURCE INDEX`.
    Build {
        /// The form of the source.
        form: Form,
        /// The source's name.
        source: &'a str,
        /// The index file's name.
        index: &'a str,
    },
    /// `ask COLLECTION SCRIPT` or `excerpts COLLECTION SCRIPT`.
    Ask {
        /// How hits are shown.
        form: HitForm,
        /// The collection's name.
        collection: &'a str,
        /// The script's name.
        script: &'a str,
    },
    /// `replay INDEX SCRIPT`.
    Replay {
        /// The index file's name.
        index: &'a str,
        /// The script's name.
        script: &'a str,
    },
    /// `serve INDEX PORT CONNS`.
    Serve {
        /// The index file's name.
        index: &'a str,
        /// The port's digits.
        port: &'a str,
        /// The digits of the number of connections.
        conns: &'a str,
    },
    /// `trial N`.
    Trial {
        /// The number's digits.
        number: &'a str,
    },
    /// `upgrade INDEX NEW`.
    Upgrade {
        /// The index file's name.
        index: &'a str,
        /// The name of the file that is made.
        new: &'a str,
    },
    /// `merge INDEX1 INDEX2 NEW`.
    Merge {
        /// The name of the index file whose documents come first.
        first: &'a str,
        /// The name of the other one.
        second: &'a str,
        /// The name of the file that is made.
        new: &'a str,
    },
    /// `live INDEX SCRIPT`.
    Live {
        /// The index file's name.
        index: &'a str,
        /// The script's name.
        script: &'a str,
    },
}

/// The command; None where the words aren't in the table.
pub fn command_of(words: &[String]) -> Option<Command<'_>>
    ensures seen { option_map seen_command result ≡ command_of (map string_bytes words.now) }
    ensures numbers { ForSome result HasNumbers }
{
    match words {
        [command, number] => trial(command.as_str(), number.as_str()),
        [command, first, second] => two_words(command.as_str(), first.as_str(), second.as_str()),
        [command, first, second, third] => three_words(
            command.as_str(),
            first.as_str(),
            second.as_str(),
            third.as_str(),
        ),
        _ => None,
    }
}

fn two_words<'a>(command: &str, first: &'a str, second: &'a str) -> Option<Command<'a>>
    ensures seen { option_map seen_command result ≡ two_words command.now first.now second.now }
    ensures numbers { ForSome result HasNumbers }
{
    match command {
        "build" => Some(Command::Build {
            form: Form::Collection,
            source: first,
            index: second,
        }),
        "ask" => Some(Command::Ask {
            form: HitForm::Titled,
            collection: first,
            script: second,
        }),
        "replay" => Some(Command::Replay {
            index: first,
            script: second,
        }),
        "upgrade" => Some(Command::Upgrade {
            index: first,
            new: second,
        }),
        "excerpts" => Some(Command::Ask {
            form: HitForm::Excerpted,
            collection: first,
            script: second,
        }),
        "live" => Some(Command::Live {
            index: first,
            script: second,
        }),
        _ => None,
    }
}

fn three_words<'a>(
    command: &str,
    first: &'a str,
    second: &'a str,
    third: &'a str,
) -> Option<Command<'a>>
    ensures seen { option_map seen_command result ≡ three_words command.now first.now second.now third.now }
    ensures numbers { ForSome result HasNumbers }
{
    match command {
        "import" => import(first, second, third),
        "merge" => Some(Command::Merge {
            first,
            second,
            new: third,
        }),
        _ => serve(command, first, second, third),
    }
}

fn import<'a>(form: &str, source: &'a str, index: &'a str) -> Option<Command<'a>>
    ensures seen { option_map seen_command result ≡ import_words form.now source.now index.now }
    ensures numbers { ForSome result HasNumbers }
{
    match form {
        "csv" => Some(Command::Build {
            form: Form::Csv,
            source,
            index,
        }),
        "jsonl" => Some(Command::Build {
            form: Form::JsonLines,
            source,
            index,
        }),
        _ => None,
    }
}

fn serve<'a>(command: &str, index: &'a str, port: &'a str, conns: &'a str) -> Option<Command<'a>>
    ensures seen { option_map seen_command result ≡ serve_words command.now index.now port.now conns.now }
    ensures numbers { ForSome result HasNumbers }
{
    if command == "serve"
        && is_number(port, MAX_PORT_DIGITS, MAX_PORT)
        && is_number(conns, MAX_CONNECTIONS_DIGITS, MAX_CONNECTIONS)
    {
        Some(Command::Serve { index, port, conns })
    } else {
        None
    }
}

fn trial<'a>(command: &str, number: &'a str) -> Option<Command<'a>>
    ensures seen { option_map seen_command result ≡ trial_words command.now number.now }
    ensures numbers { ForSome result HasNumbers }
{
    if command == "trial" && is_number(number, MAX_TRIAL_DIGITS, MAX_TRIAL) {
        Some(Command::Trial { number })
    } else {
        None
    }
}

/// The port of its word.
pub fn port_of(word: &str) -> u16
    requires { is_number MAX_PORT_DIGITS MAX_PORT word.now ≡ true }

    ensures { result ≡ number_of word.now }
{
    number_of(word.as_bytes()) as u16
}

/// The number of connections of its word.
pub fn conns_of(word: &str) -> u32
    requires { is_number MAX_CONNECTIONS_DIGITS MAX_CONNECTIONS word.now ≡ true }

    ensures { result ≡ number_of word.now }
{
    number_of(word.as_bytes())
}

/// The number of a trial by its word.
pub fn trial_of(word: &str) -> u32
    requires { is_number MAX_TRIAL_DIGITS MAX_TRIAL word.now ≡ true }

    ensures value { result ≡ number_of word.now }
    ensures some { 1 ≤ result }
    ensures most { result ≤ MAX_TRIAL }
{
    number_of(word.as_bytes())
}

// Whether a word is 1 to so many digits, and their number from 1 to `greatest`.
fn is_number(word: &str, digits: usize, greatest: u32) -> bool
    requires { digits ≤ MAX_CONNECTIONS_DIGITS }

    ensures { result ≡ is_number digits greatest word.now }
{
    let bytes = word.as_bytes();
    if !has_digits(bytes, digits) {
        return false;
    }
    is_in_range(number_of(bytes), greatest)
}

fn is_in_range(number: u32, greatest: u32) -> bool
    ensures { result ≡ (nat_lt 0 number && nat_le number greatest) }
{
    0 < number && number <= greatest
}
