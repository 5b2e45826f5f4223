//! Pushing, taking and stealing.

ghost use Rattle.std.specs.Prelude.{◌≡◌, ◌≤◌, ◌<◌, ◌++◌, [], ◌∷◌, ℕ, List, length};
ghost use Rattle.std.specs.Prelude.{OnOk, IfErr, IfSome, IfNone, IsPermutation};
ghost use Rattle.task_deques.specs.Shares.{whole, WasEmpty};
ghost use Rattle.task_deques.specs.Holders.{pushed_to, taken_from, deque_home, deque_part};
ghost use Rattle.task_deques.specs.Holders.{pushed_through, taken_through, stealer_home};
ghost use Rattle.task_deques.specs.Holders.{stealer_part, holder_part, pushed_by, taken_by};
ghost use Rattle.task_deques.specs.Holders.{deque_share, stealer_share, victim_of};
ghost use Rattle.task_deques.specs.Holders.{IsHolderOf, IsSameBut, FoundEmpty};

use crate::holders::{HolderOf, TaskDeque, TaskStealer};
use crate::shares::{Puts, Takes, Task};
use crossbeam_deque::Steal;
use std::sync::Wait;

impl<T: Task> TaskDeque<T> {
    /// Hands the task back only where the deque doesn't grow.
    pub fn push(&mut self, task: T) -> Result<(), T>
        requires home { T.home task ≡ deque_home self.old }
        ensures same { deque_part self.new ≡ deque_part self.old }
        ensures home { deque_home self.new ≡ deque_home self.old }
        ensures taken { taken_from self.new ≡ taken_from self.old }
        ensures ok { OnOk result (pushed_to self.new ≡ pushed_to self.old ++ task ∷ []) }
        ensures err { IfErr result (λ back.
            (back ≡ task) × (pushed_to self.new ≡ pushed_to self.old)) }
        ensures room { IfErr result (λ _. 64 ≤ length (pushed_to self.old)) }
    {
        self.worker.push_as::<Puts>(task)
    }

    /// The oldest task. None only where the deque was empty at one moment of the call.
    pub fn take(&mut self) -> Option<T>
        ensures same { deque_part self.new ≡ deque_part self.old }
        ensures home { deque_home self.new ≡ deque_home self.old }
        ensures pushed { pushed_to self.new ≡ pushed_to self.old }
        ensures some { IfSome result (λ task.
            taken_from self.new ≡ taken_from self.old ++ task ∷ []) }
        ensures task { IfSome result (λ task. T.home task ≡ deque_home self.old) }
        ensures bound { IfSome result (λ _. (deque_part self.old).1 ≡ whole
            → length (taken_from self.new) ≤ length (pushed_to self.new)) }
        ensures none { IfNone result (taken_from self.new ≡ taken_from self.old) }
        ensures empty { IfNone result (WasEmpty (deque_share self.old)) }
    {
        self.worker.pop_as::<Takes>()
    }
}

impl<T: Task> TaskStealer<T> {
    /// The oldest task of the other's deque. None only where that was empty at one moment of the
    /// call.
    pub fn steal<R: Wait>(&mut self, rt: &R) -> Option<T>
        ensures same { stealer_part self.new ≡ stealer_part self.old }
        ensures home { stealer_home self.new ≡ stealer_home self.old }
        ensures pushed { pushed_through self.new ≡ pushed_through self.old }
        ensures some { IfSome result (λ task. taken_through self.new ≡ taken_through self.old
            ++ task ∷ []) }
        ensures task { IfSome result (λ task. T.home task ≡ stealer_home self.old) }
        ensures none { IfNone result (taken_through self.new ≡ taken_through self.old) }
        ensures empty { IfNone result (WasEmpty (stealer_share self.old)) }
    {
        for _ in rt.forever() {
            match self.thief.steal_as::<Takes>(&mut self.pass) {
                Steal::Success(task) => return Some(task),
                Steal::Empty => return None,
                Steal::Retry => {}
            }
        }
        unreachable!()
    }

    /// The number of the holder whose tasks it takes.
    pub fn victim(&self) -> u32
        ensures { result ≡ victim_of self.now }
    {
        self.victim
    }
}

impl<T: Task> HolderOf<TaskDeque<T>, TaskStealer<T>> {
    /// The oldest task of one of the others.
    pub fn steal_from<R: Wait>(&mut self, rt: &R, other: usize) -> Option<T>
        requires { other < length self.old.others.items }
        ensures same { holder_part self.new ≡ holder_part self.old }
        ensures deque { self.new.deque ≡ self.old.deque }
        ensures only { IsSameBut other self.old.others.items self.new.others.items }
        ensures empty { IfNone result (FoundEmpty self.old.others.items other) }
        ensures home { (n : List ℕ) → IsHolderOf n self.old
            → IsHolderOf n self.new × IfSome result (λ task. T.home task ≡ n) }
        ensures pushed { pushed_by self.new ≡ pushed_by self.old }
        ensures some { IfSome result (λ task. IsPermutation (taken_by self.new)
            (taken_by self.old ++ task ∷ [])) }
        ensures none { IfNone result (taken_by self.new ≡ taken_by self.old) }
    {
        self.others[other].steal(rt)
    }
}
