//! The top call of the product.
//!
//! [`run`] does all that the program does, and its contract is the theorem of the whole.
#![tactic(auto)]

mod command;
mod create;

pub use command::run;
