//! What stands together.

/// A line of a script, and its reply.
#[derive(Clone, Copy, Debug)]
pub struct Worked {
    /// The line without its ending: the parameters of a request.
    pub line: &'static str,
    /// An object of JSON.
    pub reply: &'static str,
}

/// A collection, and lines that are answered over it, one after the other.
#[derive(Clone, Copy, Debug)]
pub struct WorkedScript {
    /// The bytes of the collection's file, which are text.
    pub collection: &'static str,
    /// In this order.
    pub lines: &'static [Worked],
}

/// A collection, and its index files.
#[derive(Clone, Copy, Debug)]
pub struct WorkedFile {
    /// The bytes of the collection's file, which are text.
    pub collection: &'static str,
    /// All bytes of its index file of version 2.
    pub file: &'static [u8],
    /// All bytes of that of version 1.
    pub file1: &'static [u8],
}

/// The head of a request, and what is sent for it.
#[derive(Clone, Copy, Debug)]
pub struct WorkedHead {
    /// With the empty line that ends it.
    pub head: &'static str,
    /// Head and body.
    pub response: &'static str,
}
