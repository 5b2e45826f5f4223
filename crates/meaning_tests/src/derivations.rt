//! Derivations of the only run of a text.

ghost use Rattle.std.specs.Prelude.{◌≡◌, ◌≤◌, length};
ghost use Rattle.kan_terms.specs.Table.{no_names};

use crate::spelled::{derivation, values};
use goal_syntax::{Compiled, compile};
use ground_meaning::check;
use kan_grammar::Dialect;
use kan_terms::Names;
use sexpr::read;
use std::alloc::Global;
use std::process::Abort;
use std::test::Fail;

// The program and the runs of a text.
fn compiled(
    alloc: Global,
    text: &str,
    names: &mut Names,
    dialect: Dialect,
) -> Result<Compiled, Fail>
    requires short { length text.now ≤ 1048576 }
    requires empty { names.old ≡ no_names }
{
    let Ok(data) = read(alloc, text.as_bytes(), names) else {
        return Err(Fail::from("data with a fault"));
    };
    if data.len() >= 1_048_577 {
        return Err(Fail::from("too many data"));
    }
    match compile(alloc, &[], data.as_slice(), names, dialect) {
        Ok(compiled) => Ok(compiled),
        Err(_) => Err(Fail::from("a text with a fault")),
    }
}

// Whether steps spell a derivation of the only run at a term.
fn is_derived(
    alloc: Global,
    made: &Compiled,
    names: &Names,
    term: &str,
    steps: &str,
) -> Result<bool, Fail> {
    let query = made.queries.get(0).ok_or("no run")?;
    let values = values(alloc, term, names)?;
    let derivation = derivation(alloc, steps, names)?;
    let shown = check(alloc, &made.program, query.goal, &values, &derivation)?;
    Ok(shown)
}

// A term, steps, and whether they spell a derivation at it.
#[derive(Clone, Copy)]
struct Case {
    term: &'static str,
    steps: &'static str,
    shown: bool,
}

const fn at(term: &'static str, steps: &'static str, shown: bool) -> Case {
    Case { term, steps, shown }
}

// Demands it of each case.
fn expect(
    rt: &(impl Abort + Alloc<A = Global>),
    dialect: Dialect,
    text: &str,
    cases: &[Case],
) -> Result<(), Fail>
    requires { length text.now ≤ 1048576 }
{
    let mut names = Names::new(rt.alloc());
    let made = compiled(rt.alloc(), text, &mut names, dialect)?;
    for case in cases {
        let shown = is_derived(rt.alloc(), &made, &names, case.term, case.steps)?;
        assert_eq!(rt; shown, case.shown);
    }
    Ok(())
}

#[test]
fn a_primitive_holds_or_not(rt: HostRuntime) -> Result<(), Fail> {
    let cases = [
        at("a", "holds", true),
        at("b", "holds", false),
        at("a", "enter", false),
        at("a", "holds;holds", false),
        at("a", "both;holds;holds", false),
        at("a", "choose", false),
    ];
    expect(
        &rt,
        Dialect::Book,
        "(run* q (== q 'a) ) (run* q (== q 'b))",
        &cases,
    )
}

#[test]
fn both_goals_hold(rt: HostRuntime) -> Result<(), Fail> {
    let cases = [
        at("a", "both;holds;holds", true),
        at("b", "both;holds;holds", false),
        at("1", "both;holds;holds", false),
        at("a", "both;holds", false),
        at("a", "holds;holds", false),
        at("a", "both;holds;holds;holds", false),
    ];
    expect(
        &rt,
        Dialect::Book,
        "(run* q (symbolo q) (=/= q 'b)) (run* q (== q 'a))",
        &cases,
    )
}

#[test]
fn one_goal_holds(rt: HostRuntime) -> Result<(), Fail> {
    let cases = [
        at("a", "left;holds", true),
        at("a", "right;holds", false),
        at("b", "right;left;holds", true),
        at("b", "left;holds", false),
        at("b", "right;right;holds", false),
        at("1", "right;right;holds", true),
        at("1", "right;holds", false),
    ];
    let text = "(run* q (conde ((== q 'a)) ((== q 'b)) ((numbero q))))";
    expect(&rt, Dialect::Book, text, &cases)
}

#[test]
fn new_slots_get_values(rt: HostRuntime) -> Result<(), Fail> {
    let cases = [
        at(". a . b -", "a,b;both;holds;holds", true),
        at(". a . b -", "b,a;both;holds;holds", false),
        at(". a . b -", "a;both;holds;holds", false),
        at(". a . b -", "a,b,a;both;holds;holds", false),
        at(". a . b -", "choose;both;holds;holds", false),
        at(". a . b -", "both;holds;holds", false),
        at(". a . a -", "a,a;both;holds;holds", false),
    ];
    let text = "(run* q (fresh (x y) (== q (list x y)) (=/= x y))) (run* q (== q '(a b)))";
    expect(&rt, Dialect::Book, text, &cases)
}

#[test]
fn a_relation_holds_where_its_body_does(rt: HostRuntime) -> Result<(), Fail> {
    let cases = [
        at("a", "enter;both;holds;holds", true),
        at("a", "both;holds;holds", false),
        at("1", "enter;both;holds;holds", false),
        at("a", "enter;enter;both;holds;holds", false),
    ];
    let text = "(defrel (p x y) (symbolo x) (numbero y)) (run* q (p q 1)) (run* q (== q 'a))";
    expect(&rt, Dialect::Book, text, &cases)
}

#[test]
fn pauses_are_entered(rt: HostRuntime) -> Result<(), Fail> {
    let cases = [
        at("a", "enter;left;holds", true),
        at("a", "left;holds", false),
        at("a", "enter;enter;left;holds", false),
        at("b", "enter;right;holds", true),
    ];
    expect(
        &rt,
        Dialect::All,
        "(run* q (conde ((== q 'a)) ((== q 'b))))",
        &cases,
    )
}

#[test]
fn constraints_hold_of_values(rt: HostRuntime) -> Result<(), Fail> {
    let cases = [
        at(". b . 1 -", "both;holds;holds", true),
        at(". b . a -", "both;holds;holds", false),
        at(". a -", "both;holds;holds", false),
        at(". b . b -", "both;holds;holds", false),
        at("2", "both;holds;holds", true),
    ];
    expect(
        &rt,
        Dialect::Book,
        "(run* q (absento 'a q) (=/= q '(b b)))",
        &cases,
    )
}

#[test]
fn a_value_is_chosen_once(rt: HostRuntime) -> Result<(), Fail> {
    let cases = [
        at(". 1 1", "1;holds", true),
        at(". 1 1", "1;holds;holds", false),
        at(". 1 2", "1;holds", false),
        at(". 1 1", "2;holds", false),
    ];
    expect(
        &rt,
        Dialect::Book,
        "(run* q (fresh (x) (== q (cons x x))))",
        &cases,
    )
}
