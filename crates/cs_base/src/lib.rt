//! The types, limits and traits of the outside that every other crate speaks of.
#![tactic(auto)]

mod content;
mod index;
pub mod laws;
mod memory;
mod outside;

pub use content::{
    Atom, BEHIND_TITLE, Base, Chain, DEFAULT_COMPLETIONS, DEFAULT_HITS, Doc, FACET_SCORE, Key,
    Keys, Link, Linked, MAX_ATOMS, MAX_COLLECTION_BYTES, MAX_CONNECTION_BYTES, MAX_CONNECTIONS,
    MAX_CONNECTIONS_DIGITS, MAX_COUNT_DIGITS, MAX_DEPTH, MAX_DISTANCE, MAX_DOC_WORDS, MAX_DOCS,
    MAX_FACETS, MAX_HEAD_BYTES, MAX_HEAD_FIELDS, MAX_LINE_BYTES, MAX_NAME_BYTES, MAX_OFFSET,
    MAX_PARTS, MAX_PLAIN_WORD_BYTES, MAX_PORT, MAX_PORT_DIGITS, MAX_POSITION, MAX_QUERY_BYTES,
    MAX_ROW_SCORE, MAX_ROWS, MAX_SCRIPT_LINE_BYTES, MAX_SHOWN, MAX_TRIAL, MAX_TRIAL_DIGITS,
    MAX_WEIGHT_DIGITS, MAX_WORD_BYTES, MAX_WORDS, Narrower, Part, Post, Query, Row, Scored, Seq,
    TEXT_SCORE, TITLE_SCORE, Text, USUAL_WEIGHTS, Weights, Which, Word,
};
pub use index::{BlockHead, Broken, Kept, Plan};
pub use memory::Memory;
pub use outside::{
    Event, Failed, FileSink, FileStore, Files, Hub, MemFiles, MemSink, MemStore, ScriptHub,
    Scripted, Sink, Store, TiredStore,
};
