//! Two threads settle one suspension, and go on with one value.

ghost use Rattle.std.specs.Prelude.{◌≡◌, IfSome};
ghost use Rattle.susp_cells.specs.Tables.{known_index, known_value, IsIn, IsKnownIn};

use kan_model::Store;
use std::marker::PhantomData;
use std::thread;
use std::thread::Threads;
use susp_cells::laws::known_agree;
use susp_cells::{Forced, Known, Settled, Susp, Table};

/// Work on what threads share.
pub trait Job<T, H, O> {
    // What it asks.
    ghost may: { T → H → Type 0 };

    // What it gives.
    ghost gives: { T → H → O → Type 0 };

    /// Does it.
    fn run(shared: &T, own: H) -> O
        requires { may shared.now own }
        ensures { gives shared.now own result };
}

/// Two jobs at once.
pub fn in_two<T: Sync, H: Send + Drop, O: Send, J: Job<T, H, O> + Send + Sync, R: Threads + Sync>(
    rt: &R,
    shared: &T,
    one: H,
    two: H,
) -> (O, O)
    requires one { J.may shared.now one }
    requires two { J.may shared.now two }
    ensures one { J.gives shared.now one result.0 }
    ensures two { J.gives shared.now two result.1 }
{
    thread::join(
        rt,
        move ||
            requires { J.may shared.now one }
            ensures { J.gives shared.entry.now one result }
        { J::run(shared, one) },
        move ||
            requires { J.may shared.now two }
            ensures { J.gives shared.entry.now two result }
        { J::run(shared, two) },
    )
}

/// A value for a suspension.
#[derive(Drop)]
pub struct Offer<St: Store> {
    /// The suspension.
    pub susp: Susp<St>,
    /// The value.
    pub forced: Box<Forced<St>>,
}

unsafe impl<St: Store + Send + Sync> Send for Offer<St> {}

/// Offers a value, and gives what is known then.
pub struct Offers<St>(PhantomData<St>);

impl<'a, St: Store> Job<Table<'a, St>, Offer<St>, Option<Known<St>>> for Offers<St> {
    ghost may = { λ table own. IsIn table own.susp × (own.forced.value.of ≡ own.susp) };

    ghost gives = { λ table own known. IfSome known (λ k. IsKnownIn table k
        × (known_index k ≡ own.susp.token.index)) };

    fn run(shared: &Table<'a, St>, own: Offer<St>) -> Option<Known<St>> {
        let Offer { susp, forced } = own;
        match shared.settle(&susp, forced) {
            Settled::Mine(known) => Some(known),
            Settled::Theirs(known, _) => Some(known),
            Settled::Apart(_, _) => None,
            Settled::Unseen(_) => None,
        }
    }
}

/// Two threads settle one suspension. Where both know a value, it is one value.
pub fn race<St: Store + Send + Sync, R: Threads + Sync>(
    rt: &R,
    table: &Table<'_, St>,
    one: Offer<St>,
    two: Offer<St>,
) -> Option<(Known<St>, Known<St>)>
    requires one { IsIn table.now one.susp × (one.forced.value.of ≡ one.susp) }
    requires two { IsIn table.now two.susp × (two.forced.value.of ≡ two.susp) }
    requires same { one.susp ≡ two.susp }
    ensures { IfSome result (λ known. known_value known.0 ≡ known_value known.1) }
{
    let (first, second) = in_two::<Table<'_, St>, Offer<St>, Option<Known<St>>, Offers<St>, R>(
        rt, table, one, two,
    );
    let first = first?;
    let second = second?;
    known_agree(table, &first, &second);
    Some((first, second))
}
