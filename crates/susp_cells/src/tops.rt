//! The tops of suspensions, as far as the first number that is too high for one.

ghost use Rattle.std.specs.Prelude.{◌≡◌, ◌+◌, ◌^◌, min, true, map, Contains};
ghost use Rattle.kan_model.specs.Programs.Closed as programs;
ghost use Rattle.kan_model.specs.Programs.Scope.{is_small, width as width_of};
ghost use Rattle.kan_model.specs.Streams.Bounds.{Fits, highest};
ghost use Rattle.susp_cells.specs.Places.{noted_top, stands_for};
ghost use Rattle.susp_cells.specs.Tops.{tail_top};

use crate::suspensions::Susp;
use kan_model::{Program, Store};
use stream_core::Thunk;

// How many variables one call or pause may take.
const WIDEST: u64 = 1 << 21;

// A number, as far as the first that is too high.
fn noted(number: u64) -> u64
    ensures { result ≡ min number (2 ^ 62 + 1) }
{
    number.min((1 << 62) + 1)
}

// How wide a goal of the program is.
fn goal_width(program: &Program, goal: u32) -> u32
    requires small { is_small (programs.meaning program.now) ≡ true }
    requires there { Contains (programs.meaning program.now).goals
        (programs.goal program.now goal) }
    ensures { result ≡ width_of (programs.goal program.now goal) }
{
    match program.width(goal) {
        Some(width) => width,
        None => 0,
    }
}

// The greatest of a number and the counters of stores, as far as the first that is too high.
fn highest_noted<St: Store>(stores: &[St], least: u64) -> u64
    ensures { result ≡ min (highest (map St.meaning stores.now) least) (2 ^ 62 + 1) }
{
    let mut most = least;
    for store in stores {
        most = store.counter().max(most);
    }
    noted(most)
}

// The greater of a number and the top of a tail.
fn with_tail<St: Store>(tail: &Option<Susp<St>>, number: u64) -> u64
    ensures { result ≡ tail_top tail.now number }
{
    match tail {
        Some(id) => id.top().max(number),
        None => number,
    }
}

// The top of a suspension that fits its program.
pub(crate) fn top_of<St: Store>(program: &Program, thunk: &Thunk<Susp<St>, St>) -> u64
    requires small { is_small (programs.meaning program.now) ≡ true }
    requires fits { Fits (programs.meaning program.now) (stands_for
        (programs.meaning program.now) St.meaning thunk.now) }
    ensures { result ≡ noted_top (stands_for (programs.meaning program.now) St.meaning
        thunk.now) }
{
    match thunk {
        Thunk::Call {
            rel: _,
            args: _,
            store,
        } => noted(store.counter() + WIDEST),
        Thunk::Pause {
            goal: _,
            env: _,
            store,
        } => noted(store.counter() + WIDEST),
        Thunk::Swap { heads, tail, inner } => {
            highest_noted(heads.items(), with_tail(tail, inner.top()))
        }
        Thunk::Bind {
            goal,
            env: _,
            inner,
        } => noted(inner.top() + u64::from(goal_width(program, *goal))),
    }
}
