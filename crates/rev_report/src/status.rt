//! The statuses of the program.

/// The call is done.
pub const DONE: u8 = 0;
/// The main revision ended by a trap.
pub const TRAPPED: u8 = 1;
/// A text, a code, a trace or a schedule was refused.
pub const REFUSED: u8 = 2;
/// A revision was joined twice.
pub const TWICE: u8 = 3;
/// The words have no reading.
pub const USAGE: u8 = 4;
/// The source failed.
pub const READ_FAULT: u8 = 5;
/// A sink failed.
pub const WRITE_FAULT: u8 = 6;
/// Memory ran out.
pub const NO_MEMORY: u8 = 7;
