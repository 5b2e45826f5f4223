//! Which of two variables is replaced where an equation makes them equal.

ghost use Rattle.std.specs.Prelude.{◌≡◌, ℕ, Bool};
ghost use Rattle.kan_model.specs.Stores.Solve as spec;

/// Which of the two different variables of an equation is replaced.
pub trait Order {
    // Whether the left one of two variables is replaced.
    ghost left: { Self → ℕ → ℕ → Bool };

    /// Whether the first one, on the left, is replaced; else the second one is.
    fn is_left(&self, first: u64, second: u64) -> bool
        ensures { result ≡ left self.now first second };
}

/// The order by which always the left one is replaced.
#[derive(Clone, Copy)]
pub struct LeftFirst;

impl Order for LeftFirst {
    ghost left = { λ _. spec.left_first };

    fn is_left(&self, _first: u64, _second: u64) -> bool {
        true
    }
}
