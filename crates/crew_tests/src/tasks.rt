//! Tasks for tests: numbers, all of one home.

use task_deques::Task;

/// A number to work on.
#[derive(Drop)]
pub struct Job {
    pub number: u64,
}

impl Task for Job {
    ghost use Rattle.std.specs.Prelude.{[]};

    ghost home = { λ _. [] };
}
