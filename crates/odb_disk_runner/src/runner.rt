//! The runner of rows over the store in memory.

use crate::bench::Bench;
use odb_row_disks::StepError;
use odb_rowfile::{Row, RowRunner, Verdict};
use std::alloc::{AllocError, Global};

/// Runs rows over the store in memory; the crate's head says what their lines are.
#[derive(Drop)]
pub struct DiskRunner;

impl RowRunner for DiskRunner {
    fn run_row(&mut self, alloc: Global, row: &Row) -> Result<Verdict, AllocError> {
        let Ok(mut bench) = Bench::new(alloc) else {
            return Err(AllocError);
        };
        for line in &row.lines {
            match bench.step(alloc, line.text.as_str()) {
                Ok(()) => {}
                Err(StepError::NoMemory) => return Err(AllocError),
                Err(error) => {
                    return Ok(Verdict::Wrong {
                        line: line.number,
                        why: error.to_string(alloc)?,
                    });
                }
            }
        }
        Ok(Verdict::Holds {
            checks: bench.checks,
        })
    }

    fn tally(&mut self, alloc: Global) -> Result<String, AllocError> {
        Ok(String::new(alloc))
    }
}
