//! Runs the rows of the files that its arguments name: values, texts of statements, images, replies
//! and the plain program.
#![tactic(auto)]

use odb_rowfile::run_program;
use odb_value_runner::ValueRunner;
use std::process::ExitCode;

fn main(rt: HostRuntime) -> ExitCode {
    run_program(&rt, &mut ValueRunner)
}
