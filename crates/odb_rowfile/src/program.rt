//! What a program does that runs rows.

use crate::{RowRunner, run_file};
use std::io::ErrorKind;
use std::process::ExitCode;
use std::rt::{Env, Files};
use std::{env, fs, io};

/// Runs the rows of each file that an argument names, and prints what was found of it.
///
/// It ends with the status 1 where anything was reported, no file is named, one can't be read, or
/// nothing can be printed.
pub fn run_program<R: Files + Env + Print + AllocGlobal, N: RowRunner>(
    rt: &R,
    runner: &mut N,
) -> ExitCode {
    match run_files(rt, runner) {
        Ok(true) => ExitCode::SUCCESS,
        Ok(false) => ExitCode::FAILURE,
        Err(error) => {
            let _ = println!(rt; "{error}");
            ExitCode::FAILURE
        }
    }
}

/// Runs the rows of each file, and answers whether a file was named and nothing was reported.
fn run_files<R: Files + Env + Print + AllocGlobal, N: RowRunner>(
    rt: &R,
    runner: &mut N,
) -> io::Result<bool> {
    let names = env::args(rt)?.skip(1).collect::<Vec<String>>(rt.alloc())?;
    if names.is_empty() {
        println!(rt; "no file of rows is named")?;
        return Ok(false);
    }
    let mut holds = true;
    for name in &names {
        holds = run_named(rt, name.as_str(), runner)? && holds;
    }
    Ok(holds)
}

/// Runs the rows of a file, and answers whether nothing was reported.
fn run_named<R: Files + Env + Print + AllocGlobal, N: RowRunner>(
    rt: &R,
    name: &str,
    runner: &mut N,
) -> io::Result<bool> {
    let bytes = match fs::read(rt, name) {
        Ok(bytes) => bytes,
        Err(error) if error.kind() == ErrorKind::OutOfMemory => return Err(error),
        Err(error) => {
            println!(rt; "{name}: {error}")?;
            return Ok(false);
        }
    };
    let mut out = String::new(rt.alloc());
    let holds = run_file(rt.alloc(), name, bytes.as_slice(), runner, &mut out)?;
    print!(rt; "{out}")?;
    Ok(holds)
}
