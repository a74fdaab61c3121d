//! The exit statuses of a program that reads zones.

/// What was asked for is done.
pub const SUCCESS: u8 = 0;

/// The words of the command line give no order.
pub const BAD_COMMAND_LINE: u8 = 2;

/// An input, or part of it, is refused.
pub const REFUSED: u8 = 3;

/// Reading, writing or memory failed.
pub const FAILED: u8 = 4;
