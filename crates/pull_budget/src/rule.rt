//! What each seat knows, and the rule over the words.

use atomic_table::TableRule;

/// What a seat has done and seen. It stands in clauses alone.
pub struct View {
    /// Whether this is the seat that pulls.
    pub puller: bool,
    /// How far tickets may run ahead, once that is set.
    pub ahead: u64,
    /// How often this seat pulled.
    pub made: u64,
    /// The pulls that it loaded last.
    pub seen: u64,
    /// The begun that it loaded last.
    pub read: u64,
    /// What its last exchange found.
    pub found: u64,
    /// Whether its last load of stop read the word as set.
    pub set: bool,
    /// Whether it has set stop.
    pub ender: bool,
    /// How many loads it made.
    pub loads: u64,
    /// How many exchanges it made.
    pub tries: u64,
    /// How many of them won.
    pub won: u64,
}

/// The rule over the words of a budget.
pub struct Spending;

impl TableRule<(), View, ()> for Spending {
    ghost use Rattle.pull_budget.specs.Rule.{Kept};
    ghost use Rattle.pull_budget.specs.Views.{opener};

    ghost holds = { λ _. Kept };

    ghost first = { λ _. opener };
}
