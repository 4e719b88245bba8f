//! What statements make of the history: the law that every step of the machine keeps it sound.
#![tactic(auto)]

mod laws;

pub use laws::stays_sound;
