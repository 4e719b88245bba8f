//! The program: it makes a database in the current folder, or plays the script on its standard
//! input over the one that is there and writes the replies on its standard output.
#![tactic(auto)]

use odb_folder::FolderHost;
use odb_model::Status;
use odb_tool::run;
use std::env;
use std::io::ErrorKind;
use std::process::ExitCode;

fn main(rt: HostRuntime) -> ExitCode {
    let alloc = rt.alloc();
    let words = env::args(&rt).and_then(|args| Ok(args.skip(1).collect::<Vec<String>>(alloc)?));
    let status = match words {
        Ok(words) => run(alloc, words.as_slice(), &mut FolderHost::new(&rt)),
        Err(error) if error.kind() == ErrorKind::OutOfMemory => Status::NoMemory,
        // A word that isn't UTF-8 is no word of a command.
        Err(_) => Status::Usage,
    };
    if status != Status::Done {
        match status.text(alloc) {
            Ok(text) => {
                let _ = eprintln!(rt; "{text}");
            }
            Err(_) => {
                let _ = eprintln!(rt; "optsql: no memory");
            }
        }
    }
    ExitCode::from(status.number())
}
