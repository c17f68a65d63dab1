//! The statuses with which programs that read a session end.

/// All questions were answered.
pub const ANSWERED: u8 = 0;

/// The usage line was written.
pub const USAGE: u8 = 1;

/// The line of a fault was written.
pub const FAULT: u8 = 2;

/// Some questions stopped.
pub const STOPPED: u8 = 3;

/// A read failed.
pub const READ_FAILED: u8 = 4;

/// A write failed.
pub const WRITE_FAILED: u8 = 5;

/// Memory was wanting.
pub const NO_MEMORY: u8 = 6;
