//! What each pass of a deque knows, and the rule of a deque.

ghost use Rattle.std.specs.Prelude.{ℕ, List};

use crossbeam_deque::protocol::{Join, Outcome, Protocol, Split};
use std::collections::LinkedList;
use std::marker::{Brand, PhantomData};

/// What deques hold. A task is of one home, which clauses see as a list of numbers.
pub trait Task: Sized + Drop {
    // The home.
    ghost home: { Self → List ℕ };
}

/// A pass's parts of a deque, the home of the deque's tasks, and what was put and taken through the
/// pass. It stands in clauses alone.
pub struct Share<T> {
    pub parts: u64,
    pub home: LinkedList<u64>,
    pub put: LinkedList<T>,
    pub taken: LinkedList<T>,
}

/// The rule of a deque: what was put is what was taken and what is there, each once, of one home.
pub struct EachOnce;

impl<T: Task> Protocol<T, Share<T>> for EachOnce {
    ghost use Rattle.std.specs.Prelude.{[]};
    ghost use Rattle.task_deques.specs.Shares.{share, whole, Kept};

    ghost holds = { Kept T.home };

    ghost first = { share whole [] [] [] };

    ghost guest = { share 0 [] [] [] };
}

/// Cuts a part off, and takes one in.
pub struct Cut;

impl<T> Split<Share<T>> for Cut {
    ghost use Rattle.std.specs.Prelude.{◌-◌, []};
    ghost use Rattle.task_deques.specs.Shares.{share};

    ghost left = { λ v. share (v.parts - 1) v.home v.put v.taken };

    ghost right = { λ v. share 1 v.home [] [] };
}

impl<T> Join<Share<T>> for Cut {
    ghost use Rattle.std.specs.Prelude.{◌+◌, ◌++◌, []};
    ghost use Rattle.task_deques.specs.Shares.{share};

    ghost both = { λ v w. share (v.parts + w.parts) v.home (v.put ++ w.put) (v.taken ++ w.taken) };

    ghost spent = { share 0 [] [] [] };
}

/// A home that one call picks.
pub trait Naming {
    // The home.
    ghost home: { List ℕ };
}

impl Naming for Brand {
    ghost use Rattle.std.specs.Prelude.{[]};

    ghost home = { [] };
}

/// Tells a pass the home.
pub struct Named<J>(PhantomData<J>);

impl<J: Naming, T> Split<Share<T>> for Named<J> {
    ghost use Rattle.std.specs.Prelude.{[]};
    ghost use Rattle.task_deques.specs.Shares.{share};

    ghost left = { λ v. share v.parts J.home v.put v.taken };

    ghost right = { λ v. share 0 [] [] [] };
}

/// A task is put.
pub struct Puts;

impl<T: Task> Outcome<T, Share<T>> for Puts {
    ghost use Rattle.std.specs.Prelude.{◌≡◌, ◌++◌};
    ghost use Rattle.task_deques.specs.Shares.{share};

    ghost then = { λ v xs w. w ≡ share v.parts v.home (v.put ++ xs) v.taken };
}

/// A task is taken. One pass with all parts has not taken more than was put.
pub struct Takes;

impl<T: Task> Outcome<T, Share<T>> for Takes {
    ghost use Rattle.task_deques.specs.Shares.{HasTaken, WasEmpty};

    ghost then = { HasTaken T.home };

    ghost empty = { WasEmpty };
}
