//! Chains of disequalities, each behind the older ones, which chains share.

ghost use Rattle.std.specs.Prelude.{◌≡◌, ◌++◌, ◌∷◌, [], map, reverse, IfOk, IsTrue};
ghost use Rattle.kan_model.specs.Stores.Prims.{equation as pair_equation};
ghost use Rattle.diseq.specs.Chains.{forms};

use kan_terms::{Memory, TermPairs};
use kan_tree::Again;
use std::alloc::Global;
use std::marker::Model;
use std::sync::Arc;

/// Disequalities, of which chains share the older ones.
#[cycle(chain)]
pub enum Chain {
    /// No disequality.
    Empty,
    /// The newest in front of the others.
    Link(Arc<Link>),
}

// A loop down the older ones, so that a chain however long is dropped in little stack.
impl Drop for Chain {
    fn drop(mut self) {
        loop {
            match self {
                Chain::Empty => return,
                Chain::Link(link) => match Arc::into_inner(link) {
                    Some(
                        Link {
                            pairs: _pairs,
                            older,
                        },
                    ) => self = older,
                    None => return,
                },
            }
        }
    }
}

/// A disequality in front of older ones.
#[cycle(chain)]
#[derive(Drop)]
pub struct Link {
    /// It says that these pairs don't all have the same sides.
    pub pairs: TermPairs,
    /// The older ones.
    pub older: Chain,
}

impl Model for Link {
    ghost use Rattle.std.specs.Prelude.{List, ◌++◌, ◌∷◌, [], map, length};
    ghost use Rattle.kan_model.specs.Stores.Prims.{equation as pair_equation};
    ghost use Rattle.diseq.specs.Code.{diseqs_code};
    ghost use Rattle.diseq.specs.Disequalities.{Disequality};

    ghost Value = { List Disequality };

    ghost coded = { diseqs_code };

    ghost use Rattle.diseq.specs.Chains.{forms};

    ghost view = { λ link. forms link.older ++ map pair_equation link.pairs ∷ [] };

    ghost size = { λ forms. length forms };

    ghost use Rattle.diseq.specs.ChainsFall.{older_shorter};

    ghost size_decreases = { λ link h. older_shorter (map pair_equation link.pairs) link.older };
}

impl Again for Chain {
    ghost use Rattle.std.specs.Prelude.{List};
    ghost use Rattle.diseq.specs.Chains.{forms};
    ghost use Rattle.diseq.specs.Disequalities.{Disequality};

    ghost Meaning = { List Disequality };

    ghost meaning = { forms };

    fn again(&self) -> Result<Chain, Memory> {
        match self {
            Chain::Empty => Ok(Chain::Empty),
            Chain::Link(link) => Ok(Chain::Link(Arc::try_clone(link)?)),
        }
    }
}

impl Chain {
    /// Whether there is no disequality.
    pub fn is_empty(&self) -> bool
        ensures { IsTrue result → forms self.now ≡ [] }
    {
        match self {
            Chain::Empty => true,
            Chain::Link(_) => false,
        }
    }

    /// The chain with a disequality more.
    pub fn with(self, alloc: Global, pairs: TermPairs) -> Result<Chain, Memory>
        ensures { IfOk result (λ made. forms made ≡ forms self ++ map pair_equation pairs ∷ []) }
    {
        let link = Link { pairs, older: self };
        Ok(Chain::Link(Arc::new(alloc, link)?))
    }

    /// All disequalities, the newest first.
    pub fn newest_first(&self, alloc: Global) -> Result<Vec<&TermPairs>, Memory>
        ensures { IfOk result (λ lent. map (λ pairs. map pair_equation pairs.now) lent.items ≡
            reverse (forms self.now)) }
    {
        let mut lent = Vec::new(alloc);
        let mut reached = self;
        while let Chain::Link(link) = reached {
            lent.push(&link.pairs)?;
            reached = &link.older;
        }
        Ok(lent)
    }
}
