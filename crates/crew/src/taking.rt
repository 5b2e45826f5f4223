//! The next task: from one's own deque, and else from one of the others'.

ghost use Rattle.std.specs.Prelude.{◌≡◌, ◌++◌, ℕ, List, IfSome, IfNone, IsPermutation, length};
ghost use Rattle.std.specs.Option.{option_to_list};
ghost use Rattle.task_deques.specs.Holders.{holder_part, pushed_by, taken_by, others_of};
ghost use Rattle.task_deques.specs.Holders.{IsHolderOf};
ghost use Rattle.crew.specs.Turns.{OwnWasEmpty, FirstWereEmpty};

use std::sync::Wait;
use task_deques::{Holder, Task};

// The oldest task of one's own deque.
fn own_task<T: Task>(holder: &mut Holder<T>) -> Option<T>
    ensures part { holder_part holder.new ≡ holder_part holder.old }
    ensures pushed { pushed_by holder.new ≡ pushed_by holder.old }
    ensures taken { IsPermutation (taken_by holder.new)
        (taken_by holder.old ++ option_to_list result) }
    ensures home { (home : List ℕ) → IsHolderOf home holder.old
        → IsHolderOf home holder.new × IfSome result (λ task. T.home task ≡ home) }
    ensures others { others_of holder.new ≡ others_of holder.old }
    ensures empty { IfNone result (OwnWasEmpty holder.old) }
{
    holder.deque.take()
}

// The oldest task of the first of the others that has one.
fn stolen_task<T: Task, R: Wait>(rt: &R, holder: &mut Holder<T>) -> Option<T>
    ensures part { holder_part holder.new ≡ holder_part holder.old }
    ensures pushed { pushed_by holder.new ≡ pushed_by holder.old }
    ensures taken { IsPermutation (taken_by holder.new)
        (taken_by holder.old ++ option_to_list result) }
    ensures home { (home : List ℕ) → IsHolderOf home holder.old
        → IsHolderOf home holder.new × IfSome result (λ task. T.home task ≡ home) }
    ensures empty { IfNone result (FirstWereEmpty (length (others_of holder.old)) holder.old) }
{
    for other in 0..holder.others.len() {
        if let Some(task) = holder.steal_from(rt, other) {
            return Some(task);
        }
    }
    None
}

/// The oldest task of one's own deque, and else of the first of the others, in turn, that has one.
pub(crate) fn next_task<T: Task, R: Wait>(rt: &R, holder: &mut Holder<T>) -> Option<T>
    ensures part { holder_part holder.new ≡ holder_part holder.old }
    ensures pushed { pushed_by holder.new ≡ pushed_by holder.old }
    ensures taken { IsPermutation (taken_by holder.new)
        (taken_by holder.old ++ option_to_list result) }
    ensures home { (home : List ℕ) → IsHolderOf home holder.old
        → IsHolderOf home holder.new × IfSome result (λ task. T.home task ≡ home) }
    ensures empty { IfNone result (OwnWasEmpty holder.old
        × FirstWereEmpty (length (others_of holder.old)) holder.old) }
{
    match own_task(holder) {
        Some(task) => Some(task),
        None => stolen_task(rt, holder),
    }
}
