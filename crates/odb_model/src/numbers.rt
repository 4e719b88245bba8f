//! Numbers that the definitions and the programs share.

/// How many sessions there are, numbered from 1.
pub const SESSIONS: u32 = 64;

/// The byte that ends a line.
pub const LF: u8 = 10;
