//! Generated loads.

ghost use Rattle.std.specs.Prelude.{◌≡◌, ◌++◌, ◌<◌, ◌≤◌, IfOk, OnOk, length, string_bytes};
ghost use Rattle.rel_library.specs.Loads.{gap, greatest_load, load, numbers_below};
ghost use Rattle.std.specs.Fmt.{decimal};

use kan_terms::Memory;
use std::alloc::Global;

// Adds a number to a list of numbers that has as many already.
fn add_number(number: u32, list: &mut String) -> Result<(), Memory>
    ensures { OnOk result
        (string_bytes list.new ≡ string_bytes list.old ++ gap number ++ decimal number) }
{
    if number > 0 {
        list.push_str(" ")?;
    }
    write!(list, "{number}")?;
    Ok(())
}

// The numbers below this one.
fn numbers_below(alloc: Global, number: u32) -> Result<String, Memory>
    ensures { IfOk result (λ list. string_bytes list ≡ numbers_below number) }
{
    let mut list = String::new(alloc);
    for next in 0..number {
        add_number(next, &mut list)?;
    }
    Ok(list)
}

// The text of a load.
#[tactic(auto, unfolding(crate::specs::Loads::load))]
fn load_text(alloc: Global, number: u32) -> Result<String, Memory>
    ensures { IfOk result (λ text. string_bytes text ≡ load number) }
{
    let list = numbers_below(alloc, number)?;
    let mut text = String::new(alloc);
    writeln!(
        text,
        "(run* q (fresh (x y) (appendo x y '({list})) (membero 'none x)))"
    )?;
    text.push_str("(run 4 q (conde ((alwayso) (== q 'a)) ((alwayso) (== q 'b))))\n")?;
    Ok(text)
}

/// The text of the load of a number: a run that splits a list of so many numbers in all ways and
/// has no answer, and a run of four answers.
#[tactic(auto, using(crate::proofs::LoadLaws::short_load))]
pub fn make_load(alloc: Global, number: u32) -> Result<Vec<u8>, Memory>
    requires { number ≤ greatest_load }
    ensures text { IfOk result (λ bytes. bytes.items ≡ load number) }
    ensures short { IfOk result (λ bytes. length bytes.items < 1048576) }
{
    let text = load_text(alloc, number)?;
    Ok(text.into_bytes())
}
