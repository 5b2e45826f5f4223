//! A tree from variables to values.

ghost use Rattle.std.specs.Prelude.{◌≡◌, ◌<◌, ◌%◌, ℕ, Some, None, eqb, if◌then◌else◌};
ghost use Rattle.std.specs.Prelude.{OnOk, OnErr, IfOk, IsTrue};
ghost use Rattle.std.specs.Option.{option_map};
ghost use Rattle.kan_tree.specs.Whole.{key_limit};
ghost use Rattle.kan_tree.specs.UnderKeys.{under_key, within};

use crate::again::Again;
use crate::front::{Front, Link, find_within};
use crate::heights::{fits, level_of, raise};
use crate::nodes::{fresh, put_arc};
use kan_terms::Memory;
use std::alloc::Global;
use std::sync::Arc;

// So many values wait in front of the nodes, at most. Looking through them costs time, and so does
// putting each branch's few values into its own copy of the nodes.
const MOST_WAITING: u32 = 8;

/// A tree from variables to values. Trees share what they have in common, and contracts see each as
/// a finite map.
///
/// Where others hold the nodes too, values wait in links in front of them, which trees share as
/// well: so the nodes on the way to a key are copied once for several values.
#[derive(Drop)]
pub struct VarTree<T: Drop> {
    front: Front<T>,
    // How many links stand there.
    waiting: u32,
    height: u32,
    alloc: Global,
}

// A tree where no value waits.
fn settled_tree<T: Again>(alloc: Global, front: Front<T>, height: u32) -> VarTree<T>
    ensures same { (k : ℕ) → under_key T.meaning result k ≡
        within T.meaning 0 (height % 16) front k }
    ensures settled { result.waiting ≡ 0 }
{
    VarTree {
        front,
        waiting: 0,
        height,
        alloc,
    }
}

// A tree with the values of so many links in its nodes.
fn settled<T: Again>(
    alloc: Global,
    front: &Front<T>,
    waiting: u32,
    height: u32,
) -> Result<VarTree<T>, Memory>
    ensures same { IfOk result (λ made. (k : ℕ) → under_key T.meaning made k ≡
        within T.meaning waiting (height % 16) front.now k) }
    ensures settled { IfOk result (λ made. made.waiting ≡ 0) }
{
    match front {
        Front::Link(link) => {
            if waiting == 0 {
                return Ok(settled_tree(alloc, Front::Empty, height));
            }
            let mut made = settled(alloc, &link.older, waiting - 1, height)?;
            made.put_in_nodes(link.key, link.value.again()?)?;
            Ok(made)
        }
        Front::Nodes(root) => {
            let nodes = Front::Nodes(Arc::try_clone(root)?);
            Ok(settled_tree(alloc, nodes, height))
        }
        Front::Empty => Ok(settled_tree(alloc, Front::Empty, height)),
    }
}

impl<T: Again> VarTree<T> {
    /// The tree without values, which takes no memory.
    pub fn empty(alloc: Global) -> VarTree<T>
        ensures { (k : ℕ) → under_key T.meaning result k ≡ None }
    {
        VarTree {
            front: Front::Empty,
            waiting: 0,
            height: 0,
            alloc,
        }
    }

    /// The tree once more, in the same time for every tree.
    pub fn again(&self) -> Result<VarTree<T>, Memory>
        ensures { IfOk result (λ copy. (k : ℕ) → under_key T.meaning copy k ≡
            under_key T.meaning self.now k) }
    {
        Ok(VarTree {
            front: self.front.again()?,
            waiting: self.waiting,
            height: self.height,
            alloc: self.alloc,
        })
    }

    /// Whether no value was ever put. It takes no memory.
    pub fn is_untouched(&self) -> bool
        ensures { IsTrue result → (k : ℕ) → under_key T.meaning self.now k ≡ None }
    {
        matches!(self.front, Front::Empty)
    }

    /// The value at a key. It takes no memory.
    pub fn get(&self, key: u64) -> Option<&T>
        ensures { option_map (λ value. T.meaning value.now) result
            ≡ under_key T.meaning self.now key }
    {
        find_within(&self.front, self.waiting, self.height % 16, key)
    }

    // A higher root, so that a key fits.
    fn grow(&mut self, key: u64) -> Result<(), Memory>
        requires { self.old.waiting ≡ 0 }
        ensures fits { OnOk result (key < key_limit (self.new.height % 16)) }
        ensures same { (k : ℕ) → under_key T.meaning self.new k ≡ under_key T.meaning self.old k }
        ensures settled { self.new.waiting ≡ 0 }
    {
        let level = self.height % 16;
        if fits(key, level) {
            return Ok(());
        }
        match &self.front {
            Front::Nodes(root) => {
                let raised = raise(self.alloc, Arc::try_clone(root)?, level, key)?;
                self.height = raised.level;
                self.front = Front::Nodes(raised.root);
            }
            Front::Link(_) => self.height = level_of(key, level),
            Front::Empty => self.height = level_of(key, level),
        }
        Ok(())
    }

    // The first nodes, with a value at a key.
    fn begin(&mut self, key: u64, value: T) -> Result<(), Memory>
        requires settled { self.old.waiting ≡ 0 }
        requires fits { key < key_limit (self.old.height % 16) }
        ensures ok { OnOk result ((k : ℕ) → under_key T.meaning self.new k ≡
            (if eqb k key then Some (T.meaning value) else None)) }
        ensures err { OnErr result ((k : ℕ) → under_key T.meaning self.new k ≡
            under_key T.meaning self.old k) }
        ensures settled { self.new.waiting ≡ 0 }
    {
        let node = fresh(self.alloc, self.height % 16, key, value)?;
        self.front = Front::Nodes(Arc::new(self.alloc, node)?);
        Ok(())
    }

    // Puts a value at a key into the nodes, where no value waits.
    fn put_in_nodes(&mut self, key: u64, value: T) -> Result<(), Memory>
        requires { self.old.waiting ≡ 0 }
        ensures ok { OnOk result ((k : ℕ) → under_key T.meaning self.new k ≡
            (if eqb k key then Some (T.meaning value) else under_key T.meaning self.old k)) }
        ensures err { OnErr result ((k : ℕ) → under_key T.meaning self.new k ≡
            under_key T.meaning self.old k) }
        ensures settled { self.new.waiting ≡ 0 }
    {
        self.grow(key)?;
        match &mut self.front {
            Front::Nodes(root) => put_arc(self.alloc, root, self.height % 16, key, value),
            Front::Link(_) => self.begin(key, value),
            Front::Empty => self.begin(key, value),
        }
    }

    // Puts a value at a key in front.
    fn put_in_front(&mut self, key: u64, value: T) -> Result<(), Memory>
        requires { self.old.waiting < 100 }
        ensures ok { OnOk result ((k : ℕ) → under_key T.meaning self.new k ≡
            (if eqb k key then Some (T.meaning value) else under_key T.meaning self.old k)) }
        ensures err { OnErr result ((k : ℕ) → under_key T.meaning self.new k ≡
            under_key T.meaning self.old k) }
    {
        let older = self.front.again()?;
        self.front = Front::Link(Arc::new(self.alloc, Link { key, value, older })?);
        self.waiting += 1;
        Ok(())
    }

    // Puts all values that wait into the nodes.
    fn settle(&mut self) -> Result<(), Memory>
        ensures same { (k : ℕ) → under_key T.meaning self.new k ≡ under_key T.meaning self.old k }
        ensures settled { OnOk result (self.new.waiting ≡ 0) }
    {
        *self = settled(self.alloc, &self.front, self.waiting, self.height)?;
        Ok(())
    }

    /// Puts a value at a key, over the one that is there. What nobody else holds is changed in
    /// place, the rest is copied: other trees stay.
    pub fn put(&mut self, key: u64, value: T) -> Result<(), Memory>
        ensures ok { OnOk result ((k : ℕ) → under_key T.meaning self.new k ≡
            (if eqb k key then Some (T.meaning value) else under_key T.meaning self.old k)) }
        ensures err { OnErr result ((k : ℕ) → under_key T.meaning self.new k ≡
            under_key T.meaning self.old k) }
    {
        if self.waiting >= MOST_WAITING {
            self.settle()?;
            return self.put_in_nodes(key, value);
        }
        if self.waiting == 0 && !self.front.is_shared() {
            return self.put_in_nodes(key, value);
        }
        self.put_in_front(key, value)
    }

    /// A tree with a value at a key beside this one, which stays as it was.
    pub fn with(&self, key: u64, value: T) -> Result<VarTree<T>, Memory>
        ensures { IfOk result (λ made. (k : ℕ) → under_key T.meaning made k ≡
            (if eqb k key then Some (T.meaning value) else under_key T.meaning self.now k)) }
    {
        let mut made = self.again()?;
        made.put(key, value)?;
        Ok(made)
    }
}
