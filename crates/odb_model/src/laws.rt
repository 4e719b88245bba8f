//! The laws about the definitions, each the contract of a function with nothing to do.
ghost use Rattle.std.specs.Prelude.{◌≡◌, ℕ, List, [], ◌++◌, All, Option, Some, None, IsTrue};
ghost use Rattle.odb_model.specs.declared.write.Write.{Write};
ghost use Rattle.odb_model.specs.declared.entry.Entry.{Entry};
ghost use Rattle.odb_values.specs.declared.value.Value.{Value};
ghost use Rattle.odb_values.specs.Key.{IsKey};
ghost use Rattle.odb_model.specs.declared.predicate.Predicate.{Predicate};
ghost use Rattle.odb_model.specs.declared.statement.Statement.{Statement};
ghost use Rattle.odb_model.specs.declared.table_key.TableKey.{TableKey};
ghost use Rattle.odb_model.specs.State.{State, AgreeOn, IsHistory, is_in, after_writes, replay};
ghost use Rattle.odb_model.specs.Table.{Table, IsTable, key_of};
ghost use Rattle.odb_model.specs.Dictionary.{table_of};
ghost use Rattle.odb_model.specs.Truth.{matches};
ghost use Rattle.odb_model.specs.Where.{range_of};
ghost use Rattle.odb_model.specs.Fitting.{row_refusal};
ghost use Rattle.odb_model.specs.Meaning.{meaning, values_of};
ghost use Rattle.odb_model.specs.Reads.{reads, IsLawful};
ghost use Rattle.odb_model.specs.Transaction.{Executed, statements_of, replies_of, table_keys, write_set_of, net, alone, conflict};
ghost use Rattle.odb_model.specs.Intentions.{intentions_of, intended};
ghost use Rattle.odb_model.specs.Storable.{AreStorable, IsStorableList, HaveKeys, HasKeys};
ghost use Rattle.odb_model.specs.Serial.{HasOpenReplies};

/// Two lawful states that agree on every key of the ranges that a statement reads give it the same
/// meaning, and it reads the same ranges on both.
pub fn agrees_on_reads()
    ensures meaning { (st : Statement) (s t : State) (written : List TableKey) (format : ℕ)
        → IsLawful s → IsLawful t → AgreeOn (reads st s) s t
        → meaning st s written format ≡ meaning st t written format }
    ensures reads { (st : Statement) (s t : State)
        → IsLawful s → IsLawful t → AgreeOn (reads st s) s t → reads st s ≡ reads st t }
{}

/// A transaction that got the replies of its statements at their numbers, and that conflicts with
/// nothing, answers as if it had run alone at the end of the history.
pub fn answers_alone()
    ensures { (h : List Entry) (t : List Executed) (format : ℕ)
        → IsHistory h → HasOpenReplies h [] t format → conflict h t format ≡ None
        → (alone (statements_of t) (replay h) format).replies ≡ replies_of t }
{}

/// Where nothing conflicts with a transaction, its intentions leave what its writes leave on the
/// history: whether a row was there may be judged at the first write to it.
pub fn intends_net()
    ensures { (h : List Entry) (t : List Executed) (format : ℕ)
        → IsHistory h → conflict h t format ≡ None
        → intended (intentions_of h t format) ≡ net (replay h) (write_set_of h t format) }
{}

/// Every row at which a WHERE is True has its key in the range of the WHERE, in each table whose key
/// has columns of it, none of them twice. [`tells_tables`] says that a dictionary's tables are so.
pub fn covers_matches()
    ensures { (t : Table) (f : Option Predicate) (e : TableKey × List Value)
        → IsTable t → t.number ≡ e.0.table
        → IsTrue (matches t.columns f (values_of t e)) → IsTrue (is_in (range_of t f) e.0) }
{}

/// A dictionary's tables have 1 to 15 columns in the key, none of them twice. The key of a row that
/// may be put into such a table is one: none of its values is Null, and its image isn't too wide. So
/// the writes of a statement have keys, where the rows of the state do, and these do where the
/// writes did that made them.
pub fn tells_tables()
    ensures table { (s : State) (name : List ℕ) (t : Table)
        → table_of s name ≡ Some t → IsTable t }
    ensures row { (format : ℕ) (t : Table) (values : List Value)
        → IsTable t → row_refusal format t (key_of t values) values ≡ None
        → IsKey (key_of t values) }
    ensures writes { (st : Statement) (s : State) (written : List TableKey) (format : ℕ)
        → HasKeys s → HaveKeys (meaning st s written format).writes }
    ensures history { (h : List Entry) (write_set : List Write)
        → All (λ e. HaveKeys e.writes) h → HaveKeys write_set
        → HasKeys (after_writes (replay h) write_set) }
{}

/// A transaction's writes in a database of format 1 are always such that what they leave can be
/// stored as one entry: at most 4,096 writes in ascending order of table and key, each with a key
/// and a row of at most 1,006 bytes together. The keys of the state's rows are asked to be keys, as
/// those of a history are by [`tells_tables`], since a DELETE takes them from there.
pub fn stays_storable()
    ensures begins { AreStorable [] }
    ensures grows { (st : Statement) (s : State) (write_set : List Write)
        → HasKeys s → AreStorable write_set
        → AreStorable (write_set ++ (meaning st s (table_keys write_set) 1).writes) }
    ensures net { (s : State) (write_set : List Write)
        → AreStorable write_set → IsStorableList (net s write_set) }
{}
