//! The limits of collections, words, queries, requests, connections and the command line.

/// The most bytes of a collection.
pub const MAX_COLLECTION_BYTES: usize = 1 << 28;

/// The most bytes of a collection's line, without its ending.
pub const MAX_LINE_BYTES: usize = 1 << 20;

/// The most title and text words of one document together.
pub const MAX_DOC_WORDS: usize = 100_000;

/// The greatest position of a word in a document.
pub const MAX_POSITION: u32 = 100_008;

/// The most documents of a collection.
pub const MAX_DOCS: usize = 1 << 20;

/// The most rows of a collection.
pub const MAX_ROWS: usize = 1 << 24;

/// The most distinct words of a collection.
pub const MAX_WORDS: usize = 1 << 22;

/// The most bytes of a title or text word. A longer run of word characters is cut.
pub const MAX_PLAIN_WORD_BYTES: usize = 120;

/// The most bytes of a word, that of a facet with its name included.
pub const MAX_WORD_BYTES: usize = 138;

/// The most bytes of a facet's name.
pub const MAX_NAME_BYTES: usize = 16;

/// The most hits or completions that a request may ask to be shown.
pub const MAX_SHOWN: u32 = 100;

/// The most hits that a request may leave out in front.
pub const MAX_OFFSET: u32 = 10_000;

/// The most bytes of a script's line, without its ending.
pub const MAX_SCRIPT_LINE_BYTES: usize = 4096;

/// The most facet names that a request may ask.
pub const MAX_FACETS: usize = 8;

/// The hits that are shown where a request doesn't say.
pub const DEFAULT_HITS: u32 = 10;

/// The completions, and facet words of each table, that are shown where a request doesn't say.
pub const DEFAULT_COMPLETIONS: u32 = 10;

/// The most digits of a count among the parameters, leading zeros included.
pub const MAX_COUNT_DIGITS: usize = 5;

/// The most bytes of a query's key text, where each bracket that is open counts as one byte more.
pub const MAX_QUERY_BYTES: usize = 1024;

/// The most parts of a query, over all its brackets.
pub const MAX_PARTS: usize = 16;

/// The most atoms of a query, joins included.
pub const MAX_ATOMS: usize = 32;

/// The most brackets that are open at one place of a query.
pub const MAX_DEPTH: usize = 3;

/// How many positions two words may be apart to be near each other.
pub const MAX_DISTANCE: u32 = 8;

/// The most bytes in which a request head must end, the empty lines in front of it included.
pub const MAX_HEAD_BYTES: usize = 8192;

/// The most fields of a request head.
pub const MAX_HEAD_FIELDS: usize = 64;

/// The bytes of a connection that count. Those behind them aren't answered.
pub const MAX_CONNECTION_BYTES: usize = 1 << 20;

/// The greatest port of the command line.
pub const MAX_PORT: u32 = 65_535;

/// The most digits of a port on the command line, leading zeros included.
pub const MAX_PORT_DIGITS: usize = 5;

/// The most connections over a serving's life.
pub const MAX_CONNECTIONS: u32 = 1_000_000;

/// The most digits of a number of connections on the command line, leading zeros included.
pub const MAX_CONNECTIONS_DIGITS: usize = 7;

/// The greatest number of a trial.
pub const MAX_TRIAL: u32 = 1_000;

/// The most digits of a trial's number on the command line, leading zeros included.
pub const MAX_TRIAL_DIGITS: usize = 4;
