//! The nodes of the tree, which have a place for each digit of a key.

ghost use Rattle.std.specs.Prelude.{◌≡◌, ◌<◌, ◌/◌, ◌%◌, ◌*◌, ◌^◌, ℕ, Some, None, eqb};
ghost use Rattle.std.specs.Prelude.{if◌then◌else◌, OnOk, OnErr, IfOk};
ghost use Rattle.std.specs.Option.{option_map};
ghost use Rattle.kan_tree.specs.Slots.{at};
ghost use Rattle.std.specs.Arc.{arc_value};
ghost use Rattle.kan_tree.specs.Nodes.{look, digit_of, agree};

use crate::again::Again;
use crate::slots::Slots;
use kan_terms::Memory;
use std::alloc::Global;
use std::sync::Arc;

/// A node of the tree.
#[derive(Drop)]
pub enum Node<T: Drop> {
    /// The values, by the lowest digit of their keys.
    Leaf(Slots<T>),
    /// The nodes of the next lower level, by the digit of this one.
    Inner(Slots<Arc<Node<T>>>),
}

// The digit of a key at a level.
fn digit(key: u64, level: u32) -> usize
    requires { level < 16 }
    ensures result { result ≡ digit_of level key }
    ensures small { result < 16 }
{
    ((key >> (level * 4)) % 16) as usize
}

/// The value at a key below a node at a level.
pub fn find<T: Again>(node: &Node<T>, level: u32, key: u64) -> Option<&T>
    requires { level < 16 }
    ensures { option_map (λ value. T.meaning value.now) result ≡ look T.meaning level key node.now }
{
    let mut reached = node;
    let mut left = level;
    loop {
        match reached {
            Node::Leaf(slots) => {
                if left != 0 {
                    return None;
                }
                return slots.get(digit(key, 0));
            }
            Node::Inner(slots) => {
                if left == 0 {
                    return None;
                }
                match slots.get(digit(key, left)) {
                    Some(below) => reached = &**below,
                    None => return None,
                }
                left -= 1;
            }
        }
    }
}

/// A node with one key.
pub fn fresh<T: Again>(alloc: Global, level: u32, key: u64, value: T) -> Result<Node<T>, Memory>
    requires { level < 16 }
    ensures { IfOk result (λ made. (k : ℕ) → look T.meaning level k made ≡
        (if agree level k key then Some (T.meaning value) else None)) }
{
    if level == 0 {
        let mut slots = Slots::roomy(alloc)?;
        slots.put(digit(key, 0), value)?;
        return Ok(Node::Leaf(slots));
    }
    let below = Arc::new(alloc, fresh(alloc, level - 1, key, value)?)?;
    let mut slots = Slots::empty(alloc);
    slots.put(digit(key, level), below)?;
    Ok(Node::Inner(slots))
}

// A copy of a node, which shares all nodes below.
fn again<T: Again>(alloc: Global, node: &Node<T>) -> Result<Node<T>, Memory>
    ensures { IfOk result (λ copy. (level : ℕ) (k : ℕ) → look T.meaning level k copy ≡
        look T.meaning level k node.now) }
{
    match node {
        Node::Leaf(slots) => Ok(Node::Leaf(slots.again(alloc)?)),
        Node::Inner(slots) => Ok(Node::Inner(slots.again(alloc)?)),
    }
}

/// Puts a value at a key into a node behind a pointer, in place where nobody else holds the nodes
/// on the way.
#[cycle(put)]
pub fn put_arc<T: Again>(
    alloc: Global,
    node: &mut Arc<Node<T>>,
    level: u32,
    key: u64,
    value: T,
) -> Result<(), Memory>
    requires { level < 16 }
    ensures ok { OnOk result ((k : ℕ) → look T.meaning level k (arc_value node.new) ≡
        (if agree level k key then Some (T.meaning value)
        else look T.meaning level k (arc_value node.old))) }
    ensures err { OnErr result ((k : ℕ) → look T.meaning level k (arc_value node.new) ≡
        look T.meaning level k (arc_value node.old)) }
{
    if let Some(inner) = Arc::get_mut(node) {
        return put_node(alloc, inner, level, key, value);
    }
    let mut copy = again(alloc, &**node)?;
    put_node(alloc, &mut copy, level, key, value)?;
    *node = Arc::new(alloc, copy)?;
    Ok(())
}

// Puts a value at a key into the nodes below a node.
#[cycle(put)]
fn put_below<T: Again>(
    alloc: Global,
    slots: &mut Slots<Arc<Node<T>>>,
    level: u32,
    key: u64,
    value: T,
) -> Result<(), Memory>
    requires high { 0 < level }
    requires low { level < 16 }
    ensures ok { OnOk result ((k : ℕ) → look T.meaning level k (Node.Inner slots.new) ≡
        (if agree level k key then Some (T.meaning value)
        else look T.meaning level k (Node.Inner slots.old))) }
    ensures err { OnErr result ((k : ℕ) → look T.meaning level k (Node.Inner slots.new) ≡
        look T.meaning level k (Node.Inner slots.old)) }
{
    let place = digit(key, level);
    let index = slots.index_of(place);
    match slots.entry_mut(index) {
        Some(below) => put_arc(alloc, below, level - 1, key, value),
        None => {
            let below = Arc::new(alloc, fresh(alloc, level - 1, key, value)?)?;
            slots.put(place, below)
        }
    }
}

// Puts a value at a key into a leaf.
fn put_leaf<T: Again>(slots: &mut Slots<T>, key: u64, value: T) -> Result<(), Memory>
    ensures ok { OnOk result ((k : ℕ) → look T.meaning 0 k (Node.Leaf slots.new) ≡
        (if agree 0 k key then Some (T.meaning value)
        else look T.meaning 0 k (Node.Leaf slots.old))) }
    ensures err { OnErr result ((k : ℕ) → look T.meaning 0 k (Node.Leaf slots.new) ≡
        look T.meaning 0 k (Node.Leaf slots.old)) }
{
    slots.put(digit(key, 0), value)
}

// Puts a value at a key into a node.
#[cycle(put)]
fn put_node<T: Again>(
    alloc: Global,
    node: &mut Node<T>,
    level: u32,
    key: u64,
    value: T,
) -> Result<(), Memory>
    requires { level < 16 }
    ensures ok { OnOk result ((k : ℕ) → look T.meaning level k node.new ≡
        (if agree level k key then Some (T.meaning value) else look T.meaning level k node.old)) }
    ensures err { OnErr result ((k : ℕ) → look T.meaning level k node.new ≡
        look T.meaning level k node.old) }
{
    match node {
        Node::Leaf(slots) => {
            if level == 0 {
                return put_leaf(slots, key, value);
            }
        }
        Node::Inner(slots) => {
            if level != 0 {
                return put_below(alloc, slots, level, key, value);
            }
        }
    }
    *node = fresh(alloc, level, key, value)?;
    Ok(())
}
