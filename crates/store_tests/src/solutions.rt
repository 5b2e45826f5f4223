//! Solutions of primitives without pairs, looked for among a few atoms in the plainest way.

use crate::sketches::{Atom, Sketch, Step};

/// The value of a variable.
#[derive(Clone, Copy, PartialEq, Eq)]
pub(crate) enum Value {
    /// A symbol.
    Sym(u32),
    /// A string.
    Str(u32),
    /// A number.
    Num(i128),
    /// The empty list.
    Nil,
}

/// The values of four variables.
#[derive(Clone, Copy)]
pub(crate) struct Values {
    x: Value,
    y: Value,
    z: Value,
    w: Value,
}

// How many values there are to choose from: of each type those that are written, and two more. Six
// primitives can't ask for more: two that say a type and an exclusion each leave two to ask for.
const CHOICES: u32 = 11;

// A value by its number.
fn choice(number: u32) -> Value {
    if number < 4 {
        Value::Sym(5 + number)
    } else if number < 7 {
        Value::Num(i128::from(number) - 3)
    } else if number < 10 {
        Value::Str(number - 7)
    } else {
        Value::Nil
    }
}

// Four values by their number.
fn choices(number: u32) -> Values {
    Values {
        x: choice(number % CHOICES),
        y: choice(number / CHOICES % CHOICES),
        z: choice(number / CHOICES / CHOICES % CHOICES),
        w: choice(number / CHOICES / CHOICES / CHOICES % CHOICES),
    }
}

// The value of a term without parts.
fn value_of(term: Sketch, values: Values) -> Option<Value> {
    match term {
        Sketch::Of(Atom::X) => Some(values.x),
        Sketch::Of(Atom::Y) => Some(values.y),
        Sketch::Of(Atom::Z) => Some(values.z),
        Sketch::Of(Atom::W) => Some(values.w),
        Sketch::Of(Atom::Sym(name)) => Some(Value::Sym(name)),
        Sketch::Of(Atom::Str(text)) => Some(Value::Str(text)),
        Sketch::Of(Atom::Num(number)) => Some(Value::Num(i128::from(number))),
        Sketch::Of(Atom::Nil) => Some(Value::Nil),
        Sketch::Pair(_, _) => None,
    }
}

// Whether a primitive holds.
fn holds(step: Step, values: Values) -> bool {
    match step {
        Step::Same(left, right) => value_of(left, values) == value_of(right, values),
        Step::Differ(left, right) => value_of(left, values) != value_of(right, values),
        Step::Symbol(term) => matches!(value_of(term, values), Some(Value::Sym(_))),
        Step::Number(term) => matches!(value_of(term, values), Some(Value::Num(_))),
        Step::Text(term) => matches!(value_of(term, values), Some(Value::Str(_))),
        Step::Absent(tag, term) => value_of(term, values) != Some(Value::Sym(tag)),
    }
}

// Whether all primitives hold.
fn all_hold(steps: &[Step], values: Values) -> bool {
    for step in steps {
        if !holds(*step, values) {
            return false;
        }
    }
    true
}

/// Whether some values of the four variables make all primitives hold.
pub(crate) fn has_solution(steps: &[Step]) -> bool {
    for number in 0..CHOICES * CHOICES * CHOICES * CHOICES {
        if all_hold(steps, choices(number)) {
            return true;
        }
    }
    false
}
