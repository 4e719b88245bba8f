//! The part of a file in which a log lies.

/// The bytes of a file from `start` to before `end`, whose first record has the number `first`.
#[derive(Clone, Copy, Debug)]
pub(crate) struct Region {
    pub(crate) file: u32,
    pub(crate) start: u64,
    pub(crate) end: u64,
    pub(crate) first: u64,
}
