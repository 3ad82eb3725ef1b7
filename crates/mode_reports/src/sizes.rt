//! How long what a call reads may be.

/// The most bytes that the text of a program may have.
pub const SOURCE_LIMIT: usize = 1_048_576;

/// The most bytes that a code file may have, and a text with a trace behind it.
pub const FILE_LIMIT: usize = 16_777_216;
