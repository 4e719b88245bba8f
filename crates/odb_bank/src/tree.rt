//! What memory keeps of a file's slots, in the order of keys.
ghost use Rattle.std.specs.Prelude.{◌≡◌, ◌<◌, ◌++◌, ◌∷◌, [], ◌&&◌, map, find, not, IfOk, OnOk};
ghost use Rattle.std.specs.List.{AllPairs, filter, list_any};
ghost use Rattle.std.specs.Option.{option_copied};
ghost use Rattle.odb_bank.specs.Closing.{supersedes, is_older, is_open, is_doubtful, is_closing};
ghost use Rattle.odb_bank.specs.Gates.{is_in, with_gate};
ghost use Rattle.odb_bank.specs.Order.{IsInOrder, CanJoin, IsCut, IsPut};
ghost use Rattle.std.specs.Ordering.{is_lt};
ghost use Rattle.odb_model.specs.State.{table_key_cmp};
ghost use Rattle.odb_rowsource.specs.Stand.{is_behind};
ghost use Rattle.odb_bank.specs.Best.{best_in, better_of, has_row_in, is_reached};

use crate::closing::{is_closing, is_older, is_open, is_staying, supersedes};
use crate::rows::{is_better, is_for};
use crate::{Gate, Kept};
use odb_model::TableKey;
use odb_rowsource::{cmp_table_keys, stand};
use odb_values::{Key, Range};
use std::alloc::{AllocError, Global};
use std::cmp::Ordering;
use std::marker::Model;
use std::mem;

/// Records in the order of their keys. Contracts see the list.
///
/// It is a search tree, in which a node's rank is at least that of each node below it. Ranks are the
/// bits of slots, mixed, so that a path has about as many nodes as the tree has levels.
#[cycle(tree)]
#[derive(Debug, Drop)]
pub(crate) struct Tree {
    root: Node,
}

#[cycle(tree)]
#[derive(Debug, Drop)]
enum Node {
    Leaf,
    // The records before this one, it, and those behind it.
    Fork(Box<(Tree, Kept, Tree)>),
}

impl Model for Tree {
    ghost use Rattle.std.specs.Prelude.{List, length};
    ghost use Rattle.odb_bank.specs.declared.kept.Kept.{Kept};

    ghost Value = { List Kept };

    ghost use Rattle.odb_bank.specs.Order.{IsInOrder};
    ghost use Rattle.odb_bank.specs.Tree.{items};

    ghost view = { λ a. items a.root };

    ghost invariant = { λ a. IsInOrder (items a.root) };

    ghost size = { length };

    ghost use Rattle.std.proofs.Common.{arith, length-append};

    ghost size_decreases = { λ a h. Prim.grind (arith, length-append) };
}

/// A record with the memory of its place in a tree. Contracts see the record.
#[derive(Debug, Drop)]
pub(crate) struct Placed {
    fork: Box<(Tree, Kept, Tree)>,
}

impl Model for Placed {
    ghost use Rattle.std.specs.Prelude.{◌≡◌, []};
    ghost use Rattle.odb_bank.specs.declared.kept.Kept.{Kept};

    ghost Value = { Kept };

    ghost view = { λ a. a.fork.value.1 };

    ghost invariant = { λ a. (a.fork.value.0 ≡ []) × (a.fork.value.2 ≡ []) };
}

impl Placed {
    /// Gives a record the memory of its place. The error is want of memory.
    pub(crate) fn new(alloc: Global, it: Kept) -> Result<Placed, AllocError>
        ensures { IfOk result (λ placed. placed ≡ it) }
    {
        let fork = Box::new(alloc, (Tree::new(), it, Tree::new()))?;
        Ok(Placed { fork })
    }
}

impl Tree {
    /// A tree of no record. It takes no memory.
    pub(crate) fn new() -> Tree
        ensures { result ≡ [] }
    {
        Tree { root: Node::Leaf }
    }

    /// The keys of its records don't fall.
    pub(crate) fn ascends(&self)
        ensures { IsInOrder self.now }
    {
        let _ = &self.root;
    }

    /// Puts a record in its place, in the time of a search. It takes no memory.
    pub(crate) fn put(&mut self, placed: Placed)
        ensures { IsPut placed self.old self.new }
    {
        let Placed { fork } = placed;
        let tree = mem::replace(self, Tree::new());
        *self = tree.with(fork);
    }

    /// The tree with one more record.
    fn with(self, mut new: Box<(Tree, Kept, Tree)>) -> Tree
        requires front { new.value.0 ≡ [] }
        requires back { new.value.2 ≡ [] }
        ensures { IsPut new.value.1 self result }
    {
        match self.root {
            Node::Leaf => Tree {
                root: Node::Fork(new),
            },
            Node::Fork(mut top) => {
                if rank(top.1.slot) < rank(new.1.slot) {
                    let all = Tree {
                        root: Node::Fork(top),
                    };
                    let (front, back) = all.cut(&new.1.at);
                    new.0 = front;
                    new.2 = back;
                    return Tree {
                        root: Node::Fork(new),
                    };
                }
                if is_before(&new.1.at, &top.1.at) {
                    let front = mem::replace(&mut top.0, Tree::new());
                    top.0 = front.with(new);
                    return Tree {
                        root: Node::Fork(top),
                    };
                }
                let back = mem::replace(&mut top.2, Tree::new());
                top.2 = back.with(new);
                Tree {
                    root: Node::Fork(top),
                }
            }
        }
    }

    /// The records whose keys aren't behind this one, and the others.
    fn cut(self, at: &TableKey) -> (Tree, Tree)
        ensures { IsCut at.now self result.0 result.1 }
    {
        match self.root {
            Node::Leaf => (Tree::new(), Tree::new()),
            Node::Fork(mut top) => {
                if is_before(at, &top.1.at) {
                    let left = mem::replace(&mut top.0, Tree::new());
                    let (front, back) = left.cut(at);
                    top.0 = back;
                    let rest = Tree {
                        root: Node::Fork(top),
                    };
                    (front, rest)
                } else {
                    let right = mem::replace(&mut top.2, Tree::new());
                    let (front, back) = right.cut(at);
                    top.2 = front;
                    let rest = Tree {
                        root: Node::Fork(top),
                    };
                    (rest, back)
                }
            }
        }
    }

    /// The records of both, none of the first behind one of the second.
    fn join(self, other: Tree) -> Tree
        requires { CanJoin self other }
        ensures { result ≡ self ++ other }
    {
        match self.root {
            Node::Leaf => other,
            Node::Fork(mut left) => match other.root {
                Node::Leaf => Tree {
                    root: Node::Fork(left),
                },
                Node::Fork(mut right) => {
                    if rank(left.1.slot) < rank(right.1.slot) {
                        let middle = mem::replace(&mut right.0, Tree::new());
                        let all = Tree {
                            root: Node::Fork(left),
                        };
                        right.0 = all.join(middle);
                        Tree {
                            root: Node::Fork(right),
                        }
                    } else {
                        let middle = mem::replace(&mut left.2, Tree::new());
                        let all = Tree {
                            root: Node::Fork(right),
                        };
                        left.2 = middle.join(all);
                        Tree {
                            root: Node::Fork(left),
                        }
                    }
                }
            },
        }
    }

    /// Notes this of the gates of these slots.
    pub(crate) fn note(&mut self, slots: &[u32], gate: Gate)
        ensures { self.new ≡ map (with_gate slots.now gate) self.old }
    {
        match &mut self.root {
            Node::Leaf => {}
            Node::Fork(fork) => {
                fork.0.note(slots, gate);
                note_gate(&mut fork.1, slots, gate);
                fork.2.note(slots, gate);
            }
        }
    }

    /// The same of slots that ascend: one pass, with a search among them for each record.
    pub(crate) fn note_run(&mut self, run: &[u32], gate: Gate)
        requires { AllPairs (λ a c. a < c) run.now }
        ensures { self.new ≡ map (with_gate run.now gate) self.old }
    {
        match &mut self.root {
            Node::Leaf => {}
            Node::Fork(fork) => {
                fork.0.note_run(run, gate);
                note_one(&mut fork.1, run, gate);
                fork.2.note_run(run, gate);
            }
        }
    }

    /// What isn't in doubt.
    pub(crate) fn known(self) -> Tree
        ensures { result ≡ filter (λ it. not (is_doubtful it.gate)) self }
    {
        match self.root {
            Node::Leaf => Tree::new(),
            Node::Fork(mut fork) => {
                let front = mem::replace(&mut fork.0, Tree::new()).known();
                let back = mem::replace(&mut fork.2, Tree::new()).known();
                if fork.1.gate == Gate::Doubtful {
                    return front.join(back);
                }
                fork.0 = front;
                fork.2 = back;
                Tree {
                    root: Node::Fork(fork),
                }
            }
        }
    }

    /// The record of a key: of those that are open on the disk the one of greatest stamp, of least
    /// slot among equal ones; or the one so far, where none is better.
    pub(crate) fn best<'a>(
        &'a self,
        table: u32,
        key: &Key,
        so_far: Option<&'a Kept>,
    ) -> Option<&'a Kept>
        ensures { option_copied result ≡ best_in (record { table = table; key = key.now })
            (option_copied so_far.entry) self.now }
    {
        match &self.root {
            Node::Leaf => so_far,
            Node::Fork(fork) => {
                let node: &(Tree, Kept, Tree) = fork;
                match cmp_table_keys(table, key, node.1.at.table, &node.1.at.key) {
                    Ordering::Less => node.0.best(table, key, so_far),
                    Ordering::Greater => node.2.best(table, key, so_far),
                    Ordering::Equal => {
                        let front = node.0.best(table, key, so_far);
                        let middle = better_of(table, key, front, &node.1);
                        node.2.best(table, key, middle)
                    }
                }
            }
        }
    }

    /// Whether a key has a row, by the records that are open on the disk.
    pub(crate) fn has_row(&self, at: &TableKey) -> bool
        ensures { result ≡ has_row_in self.now at.now }
    {
        match self.best(at.table, &at.key, None) {
            None => false,
            Some(it) => it.has_row,
        }
    }

    /// The first record whose key is in the range, behind the other one, and has a row in the whole.
    pub(crate) fn first_reached(
        &self,
        whole: &Tree,
        range: &Range,
        after: Option<&Key>,
    ) -> Option<&Kept>
        ensures { option_copied result
            ≡ find (is_reached whole.now range.now (option_copied after.entry)) self.now }
    {
        match &self.root {
            Node::Leaf => None,
            Node::Fork(fork) => {
                let node: &(Tree, Kept, Tree) = fork;
                let stands = stand(range, node.1.at.table, &node.1.at.key);
                if stands == Ordering::Less || !is_behind(range.table, after, &node.1.at) {
                    return node.2.first_reached(whole, range, after);
                }
                if let Some(found) = node.0.first_reached(whole, range, after) {
                    return Some(found);
                }
                if stands == Ordering::Greater {
                    return None;
                }
                if whole.has_row(&node.1.at) {
                    return Some(&node.1);
                }
                node.2.first_reached(whole, range, after)
            }
        }
    }

    /// Adds the slots that a turn closes of the whole, of those that are here.
    pub(crate) fn push_closing(
        &self,
        whole: &Tree,
        mark: u64,
        closing: &mut Vec<u32>,
    ) -> Result<(), AllocError>
        ensures { OnOk result (closing.new.items ≡ closing.old.items
            ++ map (λ it. it.slot) (filter (is_closing mark whole.now) self.now)) }
    {
        match &self.root {
            Node::Leaf => Ok(()),
            Node::Fork(fork) => {
                let node: &(Tree, Kept, Tree) = fork;
                node.0.push_closing(whole, mark, closing)?;
                if is_closing(whole, mark, &node.1) {
                    closing.push(node.1.slot)?;
                }
                node.2.push_closing(whole, mark, closing)
            }
        }
    }

    /// Adds the others.
    pub(crate) fn push_staying(
        &self,
        whole: &Tree,
        mark: u64,
        staying: &mut Vec<u32>,
    ) -> Result<(), AllocError>
        ensures { OnOk result (staying.new.items ≡ staying.old.items
            ++ map (λ it. it.slot) (filter (λ it. not (is_closing mark whole.now it)) self.now)) }
    {
        match &self.root {
            Node::Leaf => Ok(()),
            Node::Fork(fork) => {
                let node: &(Tree, Kept, Tree) = fork;
                node.0.push_staying(whole, mark, staying)?;
                if is_staying(whole, mark, &node.1) {
                    staying.push(node.1.slot)?;
                }
                node.2.push_staying(whole, mark, staying)
            }
        }
    }

    /// Whether one that is open on the disk supersedes this record.
    pub(crate) fn supersedes(&self, it: &Kept) -> bool
        ensures { result ≡ list_any (λ by. is_open by.gate && supersedes by it.now) self.now }
    {
        match &self.root {
            Node::Leaf => false,
            Node::Fork(fork) => {
                let node: &(Tree, Kept, Tree) = fork;
                match cmp_table_keys(it.at.table, &it.at.key, node.1.at.table, &node.1.at.key) {
                    Ordering::Less => node.0.supersedes(it),
                    Ordering::Greater => node.2.supersedes(it),
                    Ordering::Equal => {
                        node.0.supersedes(it)
                            || (is_open(node.1.gate) && supersedes(&node.1, it))
                            || node.2.supersedes(it)
                    }
                }
            }
        }
    }

    /// Whether one is older than this record.
    pub(crate) fn has_older(&self, it: &Kept) -> bool
        ensures { result ≡ list_any (λ other. is_older other it.now) self.now }
    {
        match &self.root {
            Node::Leaf => false,
            Node::Fork(fork) => {
                let node: &(Tree, Kept, Tree) = fork;
                match cmp_table_keys(it.at.table, &it.at.key, node.1.at.table, &node.1.at.key) {
                    Ordering::Less => node.0.has_older(it),
                    Ordering::Greater => node.2.has_older(it),
                    Ordering::Equal => {
                        node.0.has_older(it) || is_older(&node.1, it) || node.2.has_older(it)
                    }
                }
            }
        }
    }
}

/// Whether the one key is before the other.
fn is_before(a: &TableKey, b: &TableKey) -> bool
    ensures { result ≡ is_lt (table_key_cmp a.now b.now) }
{
    cmp_table_keys(a.table, &a.key, b.table, &b.key) == Ordering::Less
}

/// Whether a key stands behind another one of a table, where that is given.
fn is_behind(table: u32, after: Option<&Key>, at: &TableKey) -> bool
    ensures { result ≡ is_behind table (option_copied after.entry) at.now }
{
    match after {
        None => true,
        Some(last) => cmp_table_keys(table, last, at.table, &at.key) == Ordering::Less,
    }
}

/// The better one of a record so far and this one, where that is of the key.
fn better_of<'a>(table: u32, key: &Key, so_far: Option<&'a Kept>, it: &'a Kept) -> Option<&'a Kept>
    ensures { option_copied result ≡ better_of (record { table = table; key = key.now })
        (option_copied so_far.entry) it.now }
{
    if !is_for(it, table, key) {
        return so_far;
    }
    match so_far {
        None => Some(it),
        Some(best) => {
            if is_better(best, it) {
                Some(it)
            } else {
                Some(best)
            }
        }
    }
}

/// The rank of a slot's node.
fn rank(slot: u32) -> u32 {
    let mixed = (slot ^ (slot >> 16)).wrapping_mul(0x7feb_352d);
    (mixed ^ (mixed >> 15)).wrapping_mul(0x846c_a68b)
}

/// Notes this of the gate of a slot that is one of these.
fn note_gate(it: &mut Kept, slots: &[u32], gate: Gate)
    ensures { it.new ≡ with_gate slots.now gate it.old }
{
    if slots.contains(&it.slot) {
        it.gate = gate;
    }
}

/// The same where these ascend.
fn note_one(it: &mut Kept, run: &[u32], gate: Gate)
    requires { AllPairs (λ a c. a < c) run.now }
    ensures { it.new ≡ with_gate run.now gate it.old }
{
    if is_in(run, it.slot) {
        it.gate = gate;
    }
}

/// Whether a slot is one of these, by a binary search.
fn is_in(run: &[u32], slot: u32) -> bool
    requires { AllPairs (λ a c. a < c) run.now }
    ensures { result ≡ is_in run.now slot }
{
    run.binary_search(&slot).is_ok()
}
