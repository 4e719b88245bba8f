//! The script, a line at a time.
ghost use Rattle.std.specs.Prelude.{◌≡◌, [], true, OnErr, IfOk};
ghost use Rattle.odb_generate.specs.Script.{script};
ghost use Rattle.odb_generate.specs.Steps.{left_at};
ghost use Rattle.odb_generate.specs.Made.{Makes};

use crate::step::{CLOSING, OPENING, Step, steps_of};
use std::alloc::{AllocError, Global};
use std::marker::Model;

/// A place in the script.
#[derive(Debug, Drop)]
struct Place {
    /// How many rounds there are.
    rounds: u32,
    /// The round whose steps are taken, 0 before the first.
    round: u32,
    /// Whether the steps are those behind the last round.
    is_closing: bool,
    /// The steps that are left of this round.
    steps: &'static [Step],
}

impl Place {
    /// Goes on to the next round that has steps left, or behind the last one, where the steps of
    /// this one are done.
    fn go_on(&mut self)
        ensures left { left_at self.new ≡ left_at self.old }
        ensures some { self.new.steps.now ≡ [] → self.new.is_closing ≡ true }
    {
        if !self.steps.is_empty() || self.is_closing {
            return;
        }
        if self.round < self.rounds {
            self.round += 1;
            self.steps = steps_of(self.round);
        } else {
            self.is_closing = true;
            self.steps = CLOSING.as_slice();
        }
    }
}

/// Makes the script of a number of rounds, a line at a time. Contracts see the list of the lines
/// that are still to be made.
///
/// It keeps its place in the script and no line: its size doesn't depend on the rounds.
#[derive(Debug, Drop)]
pub struct Generator {
    place: Place,
}

impl Model for Generator {
    ghost use Rattle.std.specs.Prelude.{List, ℕ};
    ghost use Rattle.odb_generate.specs.Steps.{left_at};

    ghost Value = { List (List ℕ) };

    ghost view = { λ g. left_at g.place };
}

impl Generator {
    /// The generator of the whole script of so many rounds.
    pub fn new(rounds: u32) -> Generator
        ensures { result ≡ script rounds }
    {
        Generator {
            place: Place {
                rounds,
                round: 0,
                is_closing: false,
                steps: OPENING.as_slice(),
            },
        }
    }

    /// The next line of the script, without an end of line; None where all are made.
    ///
    /// A line has at most 1,100 bytes. The error is want of memory, and the line is then still the
    /// next one.
    pub fn next_line(&mut self, alloc: Global) -> Result<Option<String>, AllocError>
        ensures made { IfOk result (λ line. Makes self.old line self.new) }
        ensures refused { OnErr result (self.new ≡ self.old) }
    {
        self.place.go_on();
        let Some((step, rest)) = self.place.steps.split_first() else {
            return Ok(None);
        };
        let line = step.line(alloc, self.place.round)?;
        self.place.steps = rest;
        Ok(Some(line))
    }
}
