//! The program that runs the rows of whole scripts.
#![tactic(auto)]

use odb_rowfile::run_program;
use odb_runner::ScriptRunner;
use std::process::ExitCode;

fn main(rt: HostRuntime) -> ExitCode {
    run_program(&rt, &mut ScriptRunner::new(rt.alloc()))
}
