//! A holder's own deque, and its stealers of all others.

ghost use Rattle.std.specs.Prelude.{◌≡◌, ◌<◌, ◌≤◌, length};
ghost use Rattle.crossbeam_deque.specs.Handles.{view, IsPassOf, stealer_deque, stealer_flavor};
ghost use Rattle.crossbeam_deque.specs.Handles.{worker_flavor, worker_view, worker_capacity};
ghost use Rattle.crossbeam_deque.specs.Handles.{worker_index};

use crate::shares::{EachOnce, Share, Task};
use crossbeam_deque::{Pass, Stealer, Worker};
use std::alloc::Global;

/// A deque of tasks. The oldest task comes out first.
#[derive(Drop)]
pub struct TaskDeque<T: Task> {
    pub(crate) worker: Worker<T, Global, Share<T>, EachOnce>,
    ghost fifo: { worker_flavor worker ≡ 0 },
    ghost part: { 0 < (worker_view worker).parts },
    ghost room: { 64 ≤ worker_capacity worker },
    ghost counted: { worker_index worker ≤ length (worker_view worker).put },
}

/// Takes tasks from another holder's deque, the one with the number `victim`.
#[derive(Drop)]
pub struct TaskStealer<T: Task> {
    pub(crate) victim: u32,
    pub(crate) thief: Stealer<T, Global, Share<T>, EachOnce>,
    pub(crate) pass: Pass<T, Share<T>>,
    ghost fifo: { stealer_flavor thief ≡ 0 },
    ghost seated: { IsPassOf (stealer_deque thief) pass },
    ghost part: { 0 < (view pass).parts },
}

/// A deque and stealers of others, whatever both are.
#[derive(Drop)]
pub struct HolderOf<D, S> {
    pub deque: D,
    pub others: Vec<S>,
}

/// What one thread has: its deque, and a stealer for every other holder.
pub type Holder<T> = HolderOf<TaskDeque<T>, TaskStealer<T>>;

unsafe impl<T: Task + Send + Sync> Send for TaskDeque<T> {}

unsafe impl<T: Task + Send + Sync> Send for TaskStealer<T> {}

unsafe impl<D: Send, S: Send> Send for HolderOf<D, S> {}
