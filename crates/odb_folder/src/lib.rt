//! A host over the files of the current folder and the standard streams.
//!
//! [`FolderHost`] is the host of the program: it adapts std's files and streams to the traits of
//! `odb_device`. It counts its faults and tells proofs no content. So of what is proved over a
//! host, only what speaks of counts says something of it: what a real file holds, what a crash
//! leaves of it and what a stream gives or takes is claimed nowhere. A [`SyncedFile`] is one of its
//! files.
#![tactic(auto)]

mod counts;
mod file;
mod folder;
mod host;
mod name;
mod opening;
mod streams;

pub use counts::Counts;
pub use file::SyncedFile;
pub use host::FolderHost;
