//! Runs rows whose lines are single cases over values, texts of statements, images, replies and the
//! plain program.
//!
//! A line is `KIND GIVEN => WANTED`: [`ValueRunner`] compares what the kind gives for GIVEN with
//! WANTED. Lines without `=>` set up a history and a transaction for those behind them in the row.
//! The kinds stand in `runner`, each beside the function that has its form, which for statements,
//! tokens, texts and keys is one of `odb_row_values`. Want of memory alone ends a run; what can't be
//! read makes the row wrong.
#![tactic(auto)]

mod calls;
mod history;
mod images;
mod lines;
mod plain;
mod runner;
mod scene;

pub use runner::ValueRunner;
