//! How high the nodes of a tree are.

ghost use Rattle.std.specs.Prelude.{◌≡◌, ◌<◌, ℕ, suc, ltb, IfOk};
ghost use Rattle.std.specs.Arc.{arc_value};
ghost use Rattle.kan_tree.specs.Whole.{value_below, key_limit};

use crate::again::Again;
use crate::nodes::Node;
use crate::slots::Slots;
use kan_terms::Memory;
use std::alloc::Global;
use std::sync::Arc;

/// A key has no digit above a level.
pub fn fits(key: u64, level: u32) -> bool
    requires { level < 16 }
    ensures { result ≡ ltb key (key_limit level) }
{
    level >= 15 || key >> ((level + 1) * 4) == 0
}

// A node one level higher.
fn above<T: Again>(alloc: Global, root: Arc<Node<T>>) -> Result<Arc<Node<T>>, Memory>
    ensures { IfOk result (λ up. (level : ℕ) (k : ℕ) →
        value_below T.meaning (suc level) (arc_value up) k ≡
        value_below T.meaning level (arc_value root) k) }
{
    let mut slots = Slots::empty(alloc);
    slots.put(0, root)?;
    Ok(Arc::new(alloc, Node::Inner(slots))?)
}

/// A node under levels enough for a key.
#[derive(Drop)]
pub struct Raised<T: Drop> {
    /// The node.
    pub root: Arc<Node<T>>,
    /// Its level.
    pub level: u32,
}

/// Levels above a node until a key fits.
pub fn raise<T: Again>(
    alloc: Global,
    root: Arc<Node<T>>,
    level: u32,
    key: u64,
) -> Result<Raised<T>, Memory>
    requires { level < 16 }
    ensures low { IfOk result (λ r. r.level < 16) }
    ensures fits { IfOk result (λ r. key < key_limit r.level) }
    ensures same { IfOk result (λ r. (k : ℕ) → value_below T.meaning r.level (arc_value r.root) k ≡
        value_below T.meaning level (arc_value root) k) }
{
    if level >= 15 || fits(key, level) {
        return Ok(Raised { root, level });
    }
    raise(alloc, above(alloc, root)?, level + 1, key)
}

/// The lowest level at which a key fits.
pub fn level_of(key: u64, level: u32) -> u32
    requires { level < 16 }
    ensures low { result < 16 }
    ensures fits { key < key_limit result }
{
    if level >= 15 || fits(key, level) {
        return level;
    }
    level_of(key, level + 1)
}
