//! The laws of the book, each the contract of a function with nothing to do.
ghost use Rattle.std.specs.Prelude.{◌≡◌, ℕ, ◌+◌, ◌≤◌, Bool, List, [], length, All, Some, None};
ghost use Rattle.odb_device.specs.World.{World};
ghost use Rattle.odb_model.specs.declared.entry.Entry.{Entry};
ghost use Rattle.odb_model.specs.declared.write.Write.{Write};
ghost use Rattle.odb_model.specs.State.{IsHistory};
ghost use Rattle.odb_model.specs.Transaction.{Executed};
ghost use Rattle.odb_model.specs.Width.{entry_width};
ghost use Rattle.odb_machine.specs.Sides.{turned};
ghost use Rattle.odb_transdb.specs.Standing.{Db, IsPlaced, AreAlikePlaced, IsAdvanced};
ghost use Rattle.odb_transdb.specs.Turning.{SameSides, IsTurned};
ghost use Rattle.odb_txn.specs.Transaction.{Kept, StandsFor as TxnStandsFor};
ghost use Rattle.odb_validate.specs.Window.{reserve, push};
ghost use Rattle.odb_machine.specs.Book.{Book, verdict, with_entry, with_doubted};
ghost use Rattle.odb_commit.specs.Sealing.{IsStill};
ghost use Rattle.odb_commit.specs.Parts.{Parts, prepared, sealing_of, entry_after};
ghost use Rattle.odb_commit.specs.Standing.{sides_of, Fills, StandsFor, preparation_of, sealing_in};

/// A book that stands for one of the definitions judges a transaction as that one does, where what is
/// kept of the transaction stands for it and its reads were made since the window was: so it is prepared
/// by the verdict on it, and the writes of a definition are prepared as that book would seal them.
pub fn prepares_by_verdict()
    ensures transaction { (since : ℕ) (kept : Parts) (b : Book) (txn : Kept) (t : List Executed)
        (format : ℕ) → StandsFor since kept b → TxnStandsFor txn b.history t format
        → All (λ r. since ≤ r.number) txn.reads
        → prepared kept txn ≡ preparation_of b txn.session (verdict b t format) }
    ensures writes { (since : ℕ) (kept : Parts) (b : Book) (s : ℕ) (writes : List Write)
        → StandsFor since kept b → b.in_doubt ≡ None
        → sealing_of kept (entry_after kept s writes) ≡ sealing_in b s writes }
{}

/// A book stands for one of the definitions from the opening on: with the history and its log at first;
/// with a place reserved; with an entry more, behind whose record the log goes on; after a fault before
/// the record's gate, with the same history; and after one from the gate on, with the entry in doubt.
/// After a turn its sides are turned, and after one that was broken off they are as before.
pub fn stands_for_book()
    ensures begins { (db : Db) (h : List Entry) (reserved : Bool)
        → IsHistory h → Fills db h → StandsFor (length h)
        (record {
          transdb = db;
          window = record { start = length h; entries = []; is_reserved = reserved };
          halted = None;
        })
        (record { history = h; sides = sides_of db.header; in_doubt = None }) }
    ensures reserves { (since : ℕ) (kept : Parts) (b : Book) → StandsFor since kept b
        → StandsFor since (record kept { window = reserve kept.window }) b }
    ensures sealed { (since : ℕ) (kept : Parts) (b : Book) (e : Entry) (db : Db)
        → StandsFor since kept b → b.in_doubt ≡ None → e.number ≡ length b.history + 1
        → AreAlikePlaced kept.transdb db → IsAdvanced (13 + entry_width e) kept.transdb db
        → StandsFor since
        (record { transdb = db; window = push kept.window e; halted = None }) (with_entry b e) }
    ensures faulted { (since : ℕ) (kept : Parts) (b : Book) (db : Db)
        → StandsFor since kept b → AreAlikePlaced kept.transdb db → IsStill kept.transdb db
        → StandsFor since (record kept { transdb = db }) b }
    ensures doubted { (since : ℕ) (kept : Parts) (b : Book) (e : Entry) (db : Db)
        → StandsFor since kept b → AreAlikePlaced kept.transdb db
        → StandsFor since (record kept { transdb = db; halted = Some e.number }) (with_doubted b e) }
    ensures turned { (since : ℕ) (kept : Parts) (b : Book) (db : Db) (after : World)
        → StandsFor since kept b → b.in_doubt ≡ None → IsTurned kept.transdb db after → IsPlaced db
        → StandsFor since (record kept { transdb = db })
        (record b { sides = turned (length b.history + 1) b.sides }) }
    ensures broken { (since : ℕ) (kept : Parts) (b : Book) (db : Db)
        → StandsFor since kept b → SameSides kept.transdb db
        → StandsFor since (record kept { transdb = db }) b }
{}
