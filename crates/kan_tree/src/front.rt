//! What stands in front of a tree's nodes: the values that were put last.

ghost use Rattle.std.specs.Prelude.{◌≡◌, ◌<◌, ℕ, IfOk};
ghost use Rattle.std.specs.Option.{option_map};
ghost use Rattle.std.specs.Arc.{arc_value};
ghost use Rattle.kan_tree.specs.Whole.{value_below};
ghost use Rattle.kan_tree.specs.UnderKeys.{within};

use crate::again::Again;
use crate::heights::fits;
use crate::nodes::{Node, find};
use kan_terms::Memory;
use std::sync::Arc;

/// A value at a key, in front of what is older.
#[derive(Drop)]
pub struct Link<T: Drop, F: Drop> {
    /// The key.
    pub key: u64,
    /// The value.
    pub value: T,
    /// What stood there before.
    pub older: F,
}

/// The root of a tree's nodes, or a link in front of it. Dropping goes as deep as there are links,
/// and a tree has few of them.
#[derive(Drop)]
pub enum Front<T: Drop> {
    /// No value.
    Empty,
    /// The root.
    Nodes(Arc<Node<T>>),
    /// A value in front of older ones.
    Link(Arc<Link<T, Front<T>>>),
}

// The value at a key below a root.
fn find_below<T: Again>(root: &Node<T>, level: u32, key: u64) -> Option<&T>
    requires { level < 16 }
    ensures { option_map (λ value. T.meaning value.now) result
        ≡ value_below T.meaning level root.now key }
{
    if !fits(key, level) {
        return None;
    }
    find(root, level, key)
}

/// The value at a key in so many links, the newest first, or else in the nodes behind them.
pub fn find_within<T: Again>(front: &Front<T>, waiting: u32, level: u32, key: u64) -> Option<&T>
    requires { level < 16 }
    ensures { option_map (λ value. T.meaning value.now) result ≡
        within T.meaning waiting level front.now key }
{
    let mut reached = front;
    let mut left = waiting;
    loop {
        match reached {
            Front::Empty => return None,
            Front::Nodes(root) => return find_below(&**root, level, key),
            Front::Link(link) => {
                if left == 0 {
                    return None;
                }
                if link.key == key {
                    return Some(&link.value);
                }
                left -= 1;
                reached = &link.older;
            }
        }
    }
}

impl<T: Again> Front<T> {
    /// The same once more, which is shared.
    pub fn again(&self) -> Result<Front<T>, Memory>
        ensures { IfOk result (λ copy. (many level k : ℕ) →
            within T.meaning many level copy k ≡ within T.meaning many level self.now k) }
    {
        match self {
            Front::Empty => Ok(Front::Empty),
            Front::Nodes(root) => Ok(Front::Nodes(Arc::try_clone(root)?)),
            Front::Link(link) => Ok(Front::Link(Arc::try_clone(link)?)),
        }
    }

    /// Whether a change would copy nodes.
    pub fn is_shared(&self) -> bool {
        match self {
            Front::Empty => false,
            Front::Nodes(root) => Arc::strong_count(root) != 1,
            Front::Link(_) => true,
        }
    }
}
