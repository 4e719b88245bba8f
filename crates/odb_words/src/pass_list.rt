//! The passes that no connection has.
ghost use Rattle.std.specs.Prelude.{◌≡◌, ◌↔◌, ◌-◌, ◌<◌, None, Some, IfNone, IfSome, IsNone, IsSome};
ghost use Rattle.std.specs.Prelude.{length, map, set, take, replicate, slice_get, get_or};
ghost use Rattle.odb_words.specs.Seats.{named, name_of, list_of};
ghost use Rattle.odb_words.specs.Passes.{SitFrom, list_in, HasNone, TakesFirst};

use crate::seats::Pass;
use crate::steps::Words;
use std::alloc::Global;
use std::marker::Model;
use std::sync::Arc;

/// The passes that no connection has, each at the place of its session. Contracts see the name of
/// the word that they belong to, and at each of the 64 places the list of the pass there.
#[derive(Drop)]
pub struct PassList {
    words: Arc<Words, Global>,
    passes: Vec<Option<Pass>, Global>,
}

impl Model for PassList {
    ghost use Rattle.std.specs.Prelude.{◌≡◌, length, map};
    ghost use Rattle.odb_words.specs.Seats.{named};
    ghost use Rattle.odb_words.specs.Passes.{PassPlaces, places_code, list_in, SitFrom};

    ghost Value = { PassPlaces };

    ghost coded = { places_code };

    ghost view = { λ a. record {
      name = named a.words.value.shared.table_id a.words.value.shared.key;
      lists = map list_in a.passes.items;
    } };

    ghost invariant = { λ a. (length a.passes.items ≡ 64)
        × SitFrom (named a.words.value.shared.table_id a.words.value.shared.key) 1 a.passes.items };
}

impl PassList {
    /// The list of all passes of a word.
    pub(crate) fn new(words: Arc<Words, Global>, passes: Vec<Option<Pass>, Global>) -> PassList
        requires full { length passes.items ≡ 64 }
        requires sit { SitFrom
            (named words.value.shared.table_id words.value.shared.key) 1 passes.items }
        ensures name { result.name ≡ named words.value.shared.table_id words.value.shared.key }
        ensures lists { result.lists ≡ map list_in passes.items }
    {
        PassList { words, passes }
    }

    /// The free pass of the least session, and None exactly where no pass is in the list. It takes
    /// no memory.
    pub fn take(&mut self) -> Option<Pass>
        ensures name { self.new.name ≡ self.old.name }
        ensures none { IsNone result ↔ (self.old.lists ≡ replicate 64 None) }
        ensures left { IfNone result (self.new.lists ≡ self.old.lists) }
        ensures named { IfSome result (λ pass. name_of pass.place ≡ self.old.name) }
        ensures least { IfSome result (λ pass.
            take (pass.session - 1) self.old.lists ≡ replicate (pass.session - 1) None) }
        ensures given { IfSome result (λ pass.
            slice_get self.old.lists (pass.session - 1) ≡ Some (Some (list_of pass.place))) }
        ensures taken { IfSome result (λ pass.
            self.new.lists ≡ set self.old.lists (pass.session - 1) None) }
    {
        take_first(&mut self.passes)
    }

    /// Puts a pass back at the place of its session, instead of any pass that stands there. It
    /// takes no memory.
    pub fn give(&mut self, pass: Pass)
        requires { name_of pass.place ≡ self.old.name }
        ensures name { self.new.name ≡ self.old.name }
        ensures given { self.new.lists
            ≡ set self.old.lists (pass.session - 1) (Some (list_of pass.place)) }
    {
        let place = pass.session as usize - 1;
        self.passes[place] = Some(pass);
    }
}

// Takes the first pass out.
fn take_first(passes: &mut Vec<Option<Pass>, Global>) -> Option<Pass>
    ensures none { IfNone result (HasNone passes.old.items) }
    ensures left { IfNone result (passes.new.items ≡ passes.old.items) }
    ensures some { IfSome result (TakesFirst passes.old.items passes.new.items) }
{
    let place = first_there(passes.as_slice())?;
    passes[place].take()
}

// The first place that has a pass.
fn first_there(passes: &[Option<Pass>]) -> Option<usize>
    ensures none { IfNone result (HasNone passes.now) }
    ensures before { IfSome result (λ i.
        take i (map list_in passes.now) ≡ replicate i None) }
    ensures there { IfSome result (λ i. i < length passes.now) }
    ensures some { IfSome result (λ i. IsSome (get_or passes.now i None)) }
{
    for place in 0..passes.len() {
        if passes[place].is_some() {
            return Some(place);
        }
    }
    None
}
