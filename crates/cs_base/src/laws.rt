//! The numbers of the product, each as it is promised. The functions do nothing: their contracts are what is said.
ghost use Rattle.std.specs.Prelude.{◌≡◌, ◌^◌};

use crate::content::limits::*;
use crate::content::scores::*;

/// The limits of collections, words and positions.
pub fn collection_limits()
    ensures collection_bytes { MAX_COLLECTION_BYTES ≡ 2 ^ 28 }
    ensures line_bytes { MAX_LINE_BYTES ≡ 2 ^ 20 }
    ensures doc_words { MAX_DOC_WORDS ≡ 100000 }
    ensures position { MAX_POSITION ≡ 100008 }
    ensures docs { MAX_DOCS ≡ 2 ^ 20 }
    ensures rows { MAX_ROWS ≡ 2 ^ 24 }
    ensures words { MAX_WORDS ≡ 2 ^ 22 }
    ensures plain_word_bytes { MAX_PLAIN_WORD_BYTES ≡ 120 }
    ensures word_bytes { MAX_WORD_BYTES ≡ 138 }
    ensures name_bytes { MAX_NAME_BYTES ≡ 16 }
{}

/// The limits of scripts, requests and queries, and what a request means where it doesn't say.
pub fn request_limits()
    ensures script_line_bytes { MAX_SCRIPT_LINE_BYTES ≡ 4096 }
    ensures shown { MAX_SHOWN ≡ 100 }
    ensures offset { MAX_OFFSET ≡ 10000 }
    ensures facets { MAX_FACETS ≡ 8 }
    ensures count_digits { MAX_COUNT_DIGITS ≡ 5 }
    ensures hits { DEFAULT_HITS ≡ 10 }
    ensures completions { DEFAULT_COMPLETIONS ≡ 10 }
    ensures query_bytes { MAX_QUERY_BYTES ≡ 1024 }
    ensures parts { MAX_PARTS ≡ 16 }
    ensures atoms { MAX_ATOMS ≡ 32 }
    ensures depth { MAX_DEPTH ≡ 3 }
    ensures distance { MAX_DISTANCE ≡ 8 }
{}

/// The limits of request heads and connections.
pub fn serving_limits()
    ensures head_bytes { MAX_HEAD_BYTES ≡ 2 ^ 13 }
    ensures head_fields { MAX_HEAD_FIELDS ≡ 64 }
    ensures connection_bytes { MAX_CONNECTION_BYTES ≡ 2 ^ 20 }
{}

/// The limits of the command line's numbers.
pub fn command_limits()
    ensures port { MAX_PORT ≡ 65535 }
    ensures port_digits { MAX_PORT_DIGITS ≡ 5 }
    ensures connections { MAX_CONNECTIONS ≡ 1000000 }
    ensures connections_digits { MAX_CONNECTIONS_DIGITS ≡ 7 }
    ensures trial { MAX_TRIAL ≡ 1000 }
    ensures trial_digits { MAX_TRIAL_DIGITS ≡ 4 }
{}

/// What rows count for, and where text words begin.
pub fn scores()
    ensures row { MAX_ROW_SCORE ≡ 255 }
    ensures title { TITLE_SCORE ≡ 4 }
    ensures facet { FACET_SCORE ≡ 2 }
    ensures text { TEXT_SCORE ≡ 1 }
    ensures weight_digits { MAX_WEIGHT_DIGITS ≡ 3 }
    ensures usual { USUAL_WEIGHTS ≡ record { title = 4; facet = 2; text = 1 } }
    ensures behind_title { BEHIND_TITLE ≡ 9 }
{}
