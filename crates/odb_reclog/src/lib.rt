//! Records one behind another in a region of a file.
//!
//! A record is written behind a closed gate and counts from the moment at which its gate is open on
//! the disk. The list ends at the first place that isn't an open record of the next number.
#![tactic(auto)]

mod error;
mod gate;
mod head;
mod log;
mod opening;
mod plain;
mod reading;
mod record;
mod region;
mod walk;
mod window;
mod writing;

pub use error::RecError;
pub use log::RecLog;
pub use opening::OpenedLog;
pub use plain::log_of;
pub use record::LogRecord;
pub use window::Window;
