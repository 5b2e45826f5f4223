//! Offering suspensions to all who take tasks: they are pushed on one's own deque.

ghost use Rattle.std.specs.Prelude.{◌≡◌, [], ◌∷◌, option_map, IfSome};
ghost use Rattle.std.specs.Option.{option_to_list};
ghost use Rattle.task_deques.specs.Holders.{IsHolderOf};
ghost use Rattle.susp_cells.specs.Places.{label_tree};
ghost use Rattle.susp_cells.specs.Tables.{home_of, IsIn};
ghost use Rattle.crew.specs.Offers.{offered_trees, offered_inside, Offers};

use crate::tasks::Offered;
use kan_model::Store;
use stream_core::Thunk;
use susp_cells::{Susp, Table};
use task_deques::Holder;

// Offers a suspension, where it isn't found to be settled.
#[tactic(auto, using(crate::proofs::OfferLaws::no_offer, crate::proofs::OfferLaws::one_offered))]
fn offer_one<St: Store>(table: &Table<'_, St>, holder: &mut Holder<Offered<St>>, susp: &Susp<St>)
    requires inside { IsIn table.now susp.now }
    requires home { IsHolderOf (home_of table.now) holder.old }
    ensures home { IsHolderOf (home_of table.now) holder.new }
    ensures offers { Offers holder.old holder.new (label_tree susp.now ∷ []) }
{
    if table.look(susp).is_some() {
        return;
    }
    let Ok(susp) = susp.again() else {
        return;
    };
    let _ = holder.deque.push(Offered { susp });
}

// Offers a tail, where there is one.
#[tactic(auto, using(crate::proofs::OfferLaws::no_offer))]
fn offer_tail<St: Store>(
    table: &Table<'_, St>,
    holder: &mut Holder<Offered<St>>,
    tail: &Option<Susp<St>>,
)
    requires inside { IfSome tail.now (IsIn table.now) }
    requires home { IsHolderOf (home_of table.now) holder.old }
    ensures home { IsHolderOf (home_of table.now) holder.new }
    ensures offers { Offers holder.old holder.new
        (option_to_list (option_map label_tree tail.now)) }
{
    if let Some(susp) = tail {
        offer_one(table, holder, susp);
    }
}

// Offers what stands inside a suspension.
#[tactic(auto, using(crate::proofs::OfferLaws::no_offer, crate::proofs::OfferLaws::swap_offered, crate::proofs::OfferLaws::bind_offered))]
fn offer_inside<St: Store>(table: &Table<'_, St>, holder: &mut Holder<Offered<St>>, susp: &Susp<St>)
    requires inside { IsIn table.now susp.now }
    requires home { IsHolderOf (home_of table.now) holder.old }
    ensures home { IsHolderOf (home_of table.now) holder.new }
    ensures offers { Offers holder.old holder.new (offered_inside (label_tree susp.now)) }
{
    match table.thunk(susp) {
        Thunk::Call {
            rel: _,
            args: _,
            store: _,
        } => {}
        Thunk::Pause {
            goal: _,
            env: _,
            store: _,
        } => {}
        Thunk::Swap {
            heads: _,
            tail,
            inner,
        } => {
            offer_one(table, holder, inner);
            offer_tail(table, holder, tail);
        }
        Thunk::Bind {
            goal: _,
            env: _,
            inner,
        } => offer_one(table, holder, inner),
    }
}

/// Offers what stands inside a suspension, and then the suspension, as far as they aren't found to
/// be settled. One that the push hands back, or of which no copy can be made, isn't offered.
#[tactic(auto, using(crate::proofs::OfferLaws::both_offered))]
pub fn offer<St: Store>(table: &Table<'_, St>, holder: &mut Holder<Offered<St>>, susp: &Susp<St>)
    requires inside { IsIn table.now susp.now }
    requires home { IsHolderOf (home_of table.now) holder.old }
    ensures home { IsHolderOf (home_of table.now) holder.new }
    ensures offers { Offers holder.old holder.new (offered_trees (label_tree susp.now)) }
{
    offer_inside(table, holder, susp);
    offer_one(table, holder, susp);
}
