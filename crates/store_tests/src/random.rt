//! Random lists of primitives: over atoms beside a search for solutions, and with pairs over all
//! stores.

ghost use Rattle.std.specs.Prelude.{◌<◌};

use crate::kept::{expect, with_steps};
use crate::sketches::{Atom, Sketch, Step};
use crate::solutions::has_solution;
use kan_plain::PlainStore;
use std::alloc::Global;
use std::process::Abort;
use std::test::Fail;

// Numbers that look random.
#[derive(Drop)]
struct Random {
    state: u64,
}

impl Random {
    // The next one below a number.
    fn next(&mut self, below: u64) -> u64
        requires { 0 < below }
    {
        self.state = self
            .state
            .wrapping_mul(6_364_136_223_846_793_005)
            .wrapping_add(1_442_695_040_888_963_407);
        (self.state >> 33) % below
    }

    // An atom: of two at a time one is a variable.
    fn atom(&mut self) -> Atom {
        match self.next(9) {
            0 => Atom::Y,
            1 => Atom::Z,
            2 => Atom::W,
            3 => Atom::Sym(5),
            4 => Atom::Sym(6),
            5 => Atom::Num(1),
            6 => Atom::Str(0),
            7 => Atom::Nil,
            _ => Atom::X,
        }
    }

    // A term, which is a pair only where pairs are wanted.
    fn term(&mut self, pairs: bool) -> Sketch {
        if pairs && self.next(3) == 0 {
            let first = self.atom();
            Sketch::Pair(first, self.atom())
        } else {
            Sketch::Of(self.atom())
        }
    }

    // A primitive.
    fn step(&mut self, pairs: bool) -> Step {
        let term = self.term(pairs);
        match self.next(9) {
            0 | 1 | 2 => Step::Same(term, self.term(pairs)),
            3 | 4 => Step::Differ(term, self.term(pairs)),
            5 => Step::Symbol(term),
            6 => Step::Number(term),
            7 => Step::Text(term),
            _ => Step::Absent(5, term),
        }
    }

    // Six primitives, of which the first few are used.
    fn steps(&mut self, pairs: bool) -> [Step; 6] {
        let first = self.step(pairs);
        let second = self.step(pairs);
        let third = self.step(pairs);
        let fourth = self.step(pairs);
        let fifth = self.step(pairs);
        let sixth = self.step(pairs);
        [first, second, third, fourth, fifth, sixth]
    }
}

// Demands that a list of primitives is kept exactly where a solution is found.
fn expect_solved(rt: &(impl Abort + Alloc<A = Global>), steps: &[Step]) -> Result<(), Fail> {
    expect(rt, steps, has_solution(steps))
}

#[test]
fn lists_over_atoms_are_kept_where_they_have_a_solution(rt: HostRuntime) -> Result<(), Fail> {
    let mut random = Random { state: 1 };
    for _ in 0..1000 {
        let steps = random.steps(false);
        expect_solved(&rt, &steps[..3])?;
        expect_solved(&rt, &steps)?;
    }
    Ok(())
}

// Demands that all stores agree on a list of primitives.
fn expect_agreement(rt: &(impl Abort + Alloc<A = Global>), steps: &[Step]) -> Result<(), Fail> {
    let plain = with_steps::<PlainStore>(rt.alloc(), steps)?;
    expect(rt, steps, plain.is_some())
}

#[test]
fn stores_agree_on_lists_with_pairs(rt: HostRuntime) -> Result<(), Fail> {
    let mut random = Random { state: 2 };
    for _ in 0..2000 {
        let steps = random.steps(true);
        expect_agreement(&rt, &steps[..4])?;
        expect_agreement(&rt, &steps)?;
    }
    Ok(())
}
