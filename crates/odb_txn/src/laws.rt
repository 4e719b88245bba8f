//! The laws of what is kept, each the contract of a function with nothing to do.
ghost use Rattle.std.specs.Prelude.{◌≡◌, ℕ, Bool, List, [], ◌∷◌, ◌++◌, Option, Some, None, is_some, IsTrue};
ghost use Rattle.std.specs.FinMap.{get};
ghost use Rattle.odb_model.specs.declared.entry.Entry.{Entry};
ghost use Rattle.odb_model.specs.declared.outcome.Outcome.{Outcome};
ghost use Rattle.odb_model.specs.declared.outcome.Read.{Read};
ghost use Rattle.odb_model.specs.declared.statement.Statement.{Statement};
ghost use Rattle.odb_model.specs.declared.table_key.TableKey.{TableKey};
ghost use Rattle.odb_model.specs.State.{State, IsHistory, after_writes, replay};
ghost use Rattle.odb_model.specs.Meaning.{meaning};
ghost use Rattle.odb_model.specs.Transaction.{Executed, meaning_over, write_set_of, net, reads_of, first_conflict, conflict};
ghost use Rattle.odb_model.specs.Intentions.{intended};
ghost use Rattle.odb_model.specs.Serial.{HasOpenReplies};
ghost use Rattle.odb_model.specs.Storable.{AreStorable, HasKeys};
ghost use Rattle.odb_rowsource.specs.Intentions.{laid_over, Tells};
ghost use Rattle.odb_model.specs.Window.{oldest_number};
ghost use Rattle.odb_txn.specs.ReadSet.{AreOrdered, JudgeAlike, keep_all};
ghost use Rattle.odb_txn.specs.Transaction.{Kept, IsKept, nothing_kept, kept_with, own_keys, writes_found_rows, CanBeKept, IsNextOutcome, StandsFor};

/// Reads that are kept judge a commit as all of them do: the first conflict and the oldest number
/// are the same, whatever the history is. Each range is kept once.
pub fn judges_alike()
    ensures alike { (reads : List Read) → JudgeAlike (keep_all [] reads) reads }
    ensures once { (reads : List Read) → AreOrdered (keep_all [] reads) }
    ensures conflict { (kept all : List Read) (h : List Entry)
        → JudgeAlike kept all → first_conflict kept h ≡ first_conflict all h }
{}

/// Whether a row was there before a statement's writes is told by the statement alone.
pub fn tells_by_statement()
    ensures { (st : Statement) (s : State) (written : List TableKey) (format : ℕ)
        → Tells (λ _. writes_found_rows st) (meaning st s written format).writes s }
{}

/// A statement that runs over rows with a transaction's intentions laid over them means what it
/// means over all that the transaction has written, since of the keys written it asks the count
/// alone. In a database of format 1 what it writes there can always be kept.
pub fn means_as_it_writes()
    ensures means { (kept : Kept) (h : List Entry) (t : List Executed) (st : Statement) (format : ℕ)
        → StandsFor kept h t format
        → meaning st (laid_over (replay h) kept.own) (own_keys kept) format
        ≡ meaning_over st (replay h) (write_set_of h t format) format }
    ensures laid { (kept : Kept) (h : List Entry) (t : List Executed) (format : ℕ)
        → StandsFor kept h t format
        → laid_over (replay h) kept.own ≡ after_writes (replay h) (write_set_of h t format) }
    ensures keeps { (kept : Kept) (st : Statement) (s : State) (outcome : Outcome)
        → IsKept kept → HasKeys (laid_over s kept.own)
        → outcome.writes ≡ (meaning st (laid_over s kept.own) (own_keys kept) 1).writes
        → CanBeKept kept st outcome }
{}

/// What is kept stands for the open transaction whose statements were added, and it still does when
/// the history has grown. Then it conflicts where the transaction does, its oldest read is the
/// transaction's, and where nothing conflicts its intentions leave the transaction's net writes.
/// What the transaction's statements write can always be kept.
pub fn stands_for_transaction()
    ensures begins { (session : ℕ) (h : List Entry) (format : ℕ)
        → StandsFor (nothing_kept session) h [] format }
    ensures grows { (kept : Kept) (h : List Entry) (t : List Executed) (a : Executed)
        (format : ℕ) (outcome : Outcome)
        → StandsFor kept h t format → IsNextOutcome h t a format outcome
        → StandsFor (kept_with kept a.statement outcome a.snapshot) h (t ++ a ∷ []) format }
    ensures fits { (kept : Kept) (h : List Entry) (t : List Executed) (a : Executed)
        (format : ℕ) (outcome : Outcome)
        → StandsFor kept h t format → IsNextOutcome h t a format outcome
        → AreStorable (write_set_of h (t ++ a ∷ []) format)
        → CanBeKept kept a.statement outcome }
    ensures lasts { (kept : Kept) (h more : List Entry) (t : List Executed) (format : ℕ)
        → HasOpenReplies h [] t format → StandsFor kept h t format
        → StandsFor kept (h ++ more) t format }
    ensures conflict { (kept : Kept) (h : List Entry) (t : List Executed) (format : ℕ)
        → StandsFor kept h t format → first_conflict kept.reads h ≡ conflict h t format }
    ensures oldest { (kept : Kept) (h : List Entry) (t : List Executed) (format : ℕ)
        → StandsFor kept h t format → oldest_number kept.reads ≡ oldest_number (reads_of h t format) }
    ensures net { (kept : Kept) (h : List Entry) (t : List Executed) (format : ℕ)
        → IsHistory h → StandsFor kept h t format → conflict h t format ≡ None
        → intended kept.own ≡ net (replay h) (write_set_of h t format) }
{}
