//! The nodes of a program's tables. A node names others by their places, always smaller ones.

ghost use Rattle.std.specs.Prelude.{◌≡◌};

/// A template: a term with slots in it.
#[derive(Clone, Copy, Debug, PartialEq, Eq)]
pub enum TermNode {
    /// A slot, counted from 0.
    Slot(u32),
    /// A symbol, by its number in the table of names.
    Sym(u32),
    /// A string, by its number in the table of strings.
    Str(u32),
    /// A whole number.
    Num(i128),
    /// A truth value.
    Truth(bool),
    /// The empty list.
    Nil,
    /// A pair of two templates.
    Pair(u32, u32),
}

/// A goal.
#[derive(Clone, Copy, Debug, PartialEq, Eq)]
pub enum GoalNode {
    /// The goal that always holds.
    Succeed,
    /// The goal that never holds.
    Fail,
    /// The two templates stand for equal terms.
    Same(u32, u32),
    /// The two templates stand for different terms.
    Differ(u32, u32),
    /// The template stands for a symbol.
    Symbol(u32),
    /// The template stands for a number.
    Number(u32),
    /// The template stands for a string.
    Text(u32),
    /// The symbol, which comes first, stands nowhere in the template's term.
    Absent(u32, u32),
    /// Both goals hold.
    Both(u32, u32),
    /// One of the two goals holds.
    Either(u32, u32),
    /// The goal holds with so many slots more, behind those in scope.
    Fresh(u32, u32),
    /// The goal holds; the search pauses before it.
    Later(u32),
    /// The relation holds of the templates from a place of the table of arguments on, as many as
    /// the last number says.
    Call(u32, u32, u32),
}

/// A relation.
#[derive(Clone, Copy, Debug, PartialEq, Eq)]
pub struct Relation {
    /// Its name, by the symbol's number.
    pub name: u32,
    /// How many arguments it takes.
    pub params: u32,
    /// Its goal, whose first slots are the arguments.
    pub body: u32,
}

/// What a run asks: the values of slot 0 at which a goal holds.
#[derive(Clone, Copy, Debug, PartialEq, Eq)]
pub struct Query {
    /// The goal.
    pub goal: u32,
    /// How many answers are wanted at most.
    pub limit: Option<u64>,
}

impl Query {
    /// The same query. It takes no memory.
    pub fn again(&self) -> Query
        ensures { result ≡ self.now }
    {
        *self
    }
}

/// A template with what is known of its tree.
#[derive(Clone, Copy)]
pub(crate) struct TermRow {
    pub(crate) node: TermNode,
    // How many pairs high it is, as far as the lowest height that is too high.
    pub(crate) height: u32,
    // How many slots must be in scope.
    pub(crate) slots: u64,
}

/// A goal with what is known of its tree.
#[derive(Clone, Copy)]
pub(crate) struct GoalRow {
    pub(crate) node: GoalNode,
    // Its width, or the greatest number where that is above it.
    pub(crate) width: u32,
    // How many slots must be in scope.
    pub(crate) slots: u64,
}
