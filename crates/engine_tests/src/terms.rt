//! Copies of terms and of environments.

use crate::programs::small_program;
use kan_model::Env;
use kan_terms::Term;
use std::test::Fail;

// Whether a term is the pair of these two variables.
fn is_pair_of(term: &Term, first: u64, rest: u64) -> bool {
    let Term::Pair(pair) = term else {
        return false;
    };
    matches!(&pair.first, Term::Var(found) if *found == first)
        && matches!(&pair.rest, Term::Var(found) if *found == rest)
}

#[test]
fn the_copy_of_a_pair_has_its_parts(rt: HostRuntime) -> Result<(), Fail> {
    let pair = Term::pair(rt.alloc(), Term::Var(7), Term::Var(8))?;
    let copy = pair.again()?;
    assert!(rt; is_pair_of(&copy, 7, 8));
    Ok(())
}

#[test]
fn the_copy_of_an_environment_fills_a_template(rt: HostRuntime) -> Result<(), Fail> {
    let alloc = rt.alloc();
    let program = small_program(alloc)?;
    let env = Env::start(alloc, 5)?.extend(alloc, 9, 1)?;
    let copy = env.again(alloc)?;
    let value = copy.value(alloc, &program, 2)?;
    assert!(rt; is_pair_of(&value, 5, 9));
    Ok(())
}
