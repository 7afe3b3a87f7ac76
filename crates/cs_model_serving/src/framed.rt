//! What framing finds. It is a type alone; what it means stands in `specs/`.

/// Where a request head stands among the bytes of a connection that aren't read yet.
#[derive(Clone, Copy, Debug, PartialEq, Eq)]
pub enum Framed {
    /// A head that ends among the bytes.
    Head {
        /// The bytes of the empty lines in front of it.
        skip: usize,
        /// The bytes before the place behind it.
        end: usize,
    },
    /// No head ends, and more bytes may come.
    More,
    /// No head ends among as many bytes as one may have.
    TooLong,
}
