//! The laws of sources and of intentions, each the contract of a function with nothing to do.
ghost use Rattle.std.specs.Prelude.{◌≡◌, ℕ, ◌+◌, ◌≤◌, Bool, List, [], ◌∷◌, ◌++◌, length, take, slice_get, Some, None};
ghost use Rattle.std.specs.FinMap.{get};
ghost use Rattle.odb_values.specs.declared.range.Range.{Range};
ghost use Rattle.odb_model.specs.declared.write.Write.{Write};
ghost use Rattle.odb_model.specs.declared.entry.Entry.{Entry};
ghost use Rattle.odb_model.specs.declared.table_key.TableKey.{TableKey};
ghost use Rattle.odb_model.specs.declared.intention.Intention.{Intention};
ghost use Rattle.odb_model.specs.State.{State, table_key_of, changed, replay};
ghost use Rattle.odb_model.specs.Meaning.{different};
ghost use Rattle.odb_model.specs.Transaction.{Executed, table_keys, write_set_of, open_state, open_meaning};
ghost use Rattle.odb_model.specs.Intentions.{intentions_of};
ghost use Rattle.odb_rowsource.specs.declared.row_source.KeyedRow.{KeyedRow};
ghost use Rattle.odb_rowsource.specs.RowSource.{next_in, rows_in};
ghost use Rattle.odb_rowsource.specs.Intentions.{laid_over, AreAscending, row_over, put, put_all, Tells};

/// A walk that asks a source for the row above the last one gets the rows of a range, each once, in
/// the order of their keys.
pub fn walks_a_range()
    ensures begins { (range : Range) (s : State)
        → next_in range None s ≡ slice_get (rows_in range s) 0 }
    ensures goes_on { (range : Range) (s : State) (n : ℕ) (r : KeyedRow)
        → slice_get (rows_in range s) n ≡ Some r
        → next_in range (Some r.key) s ≡ slice_get (rows_in range s) (n + 1) }
{}

/// What intentions lay over a state: at each table key the row that is intended, and the state's
/// where nothing is. A write that is put changes what is laid over as it changes a state, and adds
/// at most one intention.
pub fn lays_rows_over()
    ensures row { (s : State) (intentions : List Intention) (at : TableKey)
        → AreAscending intentions
        → get (laid_over s intentions) at ≡ row_over at intentions (get s at) }
    ensures put { (s : State) (intentions : List Intention) (w : Write) (was_there : Bool)
        → AreAscending intentions → laid_over s (put intentions w was_there)
        ≡ changed (laid_over s intentions) (table_key_of w) w.row }
    ensures ascending { (intentions : List Intention) (w : Write) (was_there : Bool)
        → AreAscending intentions → AreAscending (put intentions w was_there) }
    ensures count { (intentions : List Intention) (w : Write) (was_there : Bool)
        → length (put intentions w was_there) ≤ length intentions + 1 }
{}

/// The intentions of a transaction are those that its writes give when they are put one after
/// another, with what each statement's state tells of the rows that it writes. Laid over the rows
/// of a snapshot they give the state on which a statement of the transaction runs there. There are
/// as many as keys written.
pub fn intends_as_it_writes()
    ensures begins { (h : List Entry) (format : ℕ) → intentions_of h [] format ≡ [] }
    ensures grows { (h : List Entry) (t : List Executed) (a : Executed) (format : ℕ)
        (was_there : TableKey → Bool) → let write_set = write_set_of h t format in
        let writes = (open_meaning a.statement a.snapshot write_set h format).writes in
        Tells was_there writes (open_state a.snapshot write_set h)
        → intentions_of h (t ++ a ∷ []) format
        ≡ put_all (intentions_of h t format) writes was_there }
    ensures state { (h : List Entry) (t : List Executed) (format snapshot : ℕ)
        → laid_over (replay (take snapshot h)) (intentions_of h t format)
        ≡ open_state snapshot (write_set_of h t format) h }
    ensures ascending { (h : List Entry) (t : List Executed) (format : ℕ)
        → AreAscending (intentions_of h t format) }
    ensures count { (h : List Entry) (t : List Executed) (format : ℕ)
        → length (intentions_of h t format) ≡ different (table_keys (write_set_of h t format)) }
{}
