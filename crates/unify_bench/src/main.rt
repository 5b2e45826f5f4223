//! Times bindings and unification: a word names the load, one the body of the trait, and one how
//! often it is done. What is printed is a count, so that nothing is left out.
#![tactic(auto)]

mod binding;
mod descending;
mod load;

use kan_subst::{ListBindings, TreeBindings};
use kan_terms::{Bindings, Memory};
use load::{Load, Wanted};
use std::alloc::Global;
use std::{env, io};

// Does a load once.
fn do_once<B: Bindings>(alloc: Global, wanted: &Wanted) -> Result<u64, Memory> {
    match wanted.load {
        Load::Versions => binding::keep_versions::<B>(alloc, wanted.size),
        Load::Numbers => descending::descend_numbers::<B>(alloc, wanted.size),
        Load::Variables => descending::descend_variables::<B>(alloc, wanted.size),
        Load::Equal => descending::compare_numbers::<B>(alloc, wanted.size),
    }
}

// Does a load as often as is wanted.
fn do_all<B: Bindings>(alloc: Global, wanted: &Wanted) -> Result<u64, Memory> {
    let mut sum = 0u64;
    for _ in 0..wanted.times {
        sum = sum.saturating_add(do_once::<B>(alloc, wanted)?);
    }
    Ok(sum)
}

// Does a load over the body that is wanted.
fn do_over(alloc: Global, wanted: &Wanted) -> Result<u64, Memory> {
    if wanted.in_list {
        do_all::<ListBindings>(alloc, wanted)
    } else {
        do_all::<TreeBindings>(alloc, wanted)
    }
}

fn main(rt: HostRuntime) -> io::Result<()> {
    for word in env::args(&rt)?.skip(1) {
        match load::wanted_of(&word) {
            None => println!(rt; "{word}: no load")?,
            Some(wanted) => match do_over(rt.alloc(), &wanted) {
                Ok(sum) => println!(rt; "{word}: {sum}")?,
                Err(Memory) => println!(rt; "{word}: out of memory")?,
            },
        }
    }
    Ok(())
}
