//! What is searched and what is asked: texts, words, documents, rows and queries, with their limits.
pub(crate) mod doc;
pub(crate) mod key;
pub(crate) mod limits;
pub(crate) mod query;
pub(crate) mod scores;
pub(crate) mod seq;
pub(crate) mod text;
pub(crate) mod word;

pub use doc::{Base, Doc, Post, Row, Scored};
pub use key::{Key, Keys, Narrower};
pub use limits::{
    DEFAULT_COMPLETIONS, DEFAULT_HITS, MAX_ATOMS, MAX_COLLECTION_BYTES, MAX_CONNECTION_BYTES,
    MAX_CONNECTIONS, MAX_CONNECTIONS_DIGITS, MAX_COUNT_DIGITS, MAX_DEPTH, MAX_DISTANCE,
    MAX_DOC_WORDS, MAX_DOCS, MAX_FACETS, MAX_HEAD_BYTES, MAX_HEAD_FIELDS, MAX_LINE_BYTES,
    MAX_NAME_BYTES, MAX_OFFSET, MAX_PARTS, MAX_PLAIN_WORD_BYTES, MAX_PORT, MAX_PORT_DIGITS,
    MAX_POSITION, MAX_QUERY_BYTES, MAX_ROWS, MAX_SCRIPT_LINE_BYTES, MAX_SHOWN, MAX_TRIAL,
    MAX_TRIAL_DIGITS, MAX_WORD_BYTES, MAX_WORDS,
};
pub use query::{Atom, Chain, Link, Linked, Part, Query, Which};
pub use scores::{
    BEHIND_TITLE, FACET_SCORE, MAX_ROW_SCORE, MAX_WEIGHT_DIGITS, TEXT_SCORE, TITLE_SCORE,
    USUAL_WEIGHTS, Weights,
};
pub use seq::Seq;
pub use text::Text;
pub use word::Word;
