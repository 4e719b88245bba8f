//! Validation: whether a commit may stand behind the entries that came after its reads.
//!
//! A [`Window`] keeps the last entries of the history and no others. That it answers what the whole
//! history would, is the law [`stands_for_history`].
#![tactic(auto)]

mod error;
mod laws;
mod oldest;
mod overwriting;
mod window;

pub use error::{Aged, WindowError};
pub use laws::{finds_longest_suffix, stands_for_history};
pub use window::{WINDOW_WRITES, Window};
