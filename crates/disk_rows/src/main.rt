//! The program: it runs rows over a pair, a log and bare files on the store in memory.
#![tactic(auto)]

use odb_disk_runner::DiskRunner;
use odb_rowfile::run_program;
use std::process::ExitCode;

fn main(rt: HostRuntime) -> ExitCode {
    run_program(&rt, &mut DiskRunner)
}
