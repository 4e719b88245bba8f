//! Tests of what no row can say, of all crates. Tests alone.
//!
//! A crate with tests is proved once more with them, and this one is proved in the time of its
//! tests. So a test stands here wherever it can be said by public calls, in a file for its crate.
#![tactic(auto)]

#[cfg(test)]
mod commit;
#[cfg(test)]
mod device;
#[cfg(test)]
mod file;
#[cfg(test)]
mod folder;
#[cfg(test)]
mod frame;
#[cfg(test)]
mod memstore;
#[cfg(test)]
mod tool;
#[cfg(test)]
mod values;
#[cfg(test)]
mod words;
