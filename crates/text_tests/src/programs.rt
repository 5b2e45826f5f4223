//! The programs that texts give, spelled word by word.

ghost use Rattle.std.specs.Prelude.{◌≡◌, ◌<◌, ◌≤◌, ◌^◌, length, map, true, IfOk};
ghost use Rattle.kan_model.specs.Programs.Closed as programs;
ghost use Rattle.kan_model.specs.Programs.Nodes.{goal_place};
ghost use Rattle.kan_model.specs.Programs.Scope.{is_small};
ghost use Rattle.kan_model.specs.Programs.Tables.{are_closed};
ghost use Rattle.kan_terms.specs.Table.{no_names};

use crate::spelling::spell_goal;
use goal_syntax::{Compiled, compile};
use kan_grammar::Dialect;
use kan_model::Program;
use kan_terms::Names;
use sexpr::read;
use std::alloc::Global;
use std::process::Abort;
use std::test::Fail;

// The program and the runs of a text.
pub(crate) fn compiled(
    alloc: Global,
    text: &str,
    names: &mut Names,
    dialect: Dialect,
) -> Result<Compiled, Fail>
    requires short { length text.now ≤ 1048576 }
    requires empty { names.old ≡ no_names }
    ensures closed { IfOk result (λ made. are_closed (programs.tables made.program)
        (map goal_place made.queries) ≡ true) }
    ensures small { IfOk result (λ made. is_small (programs.meaning made.program) ≡ true) }
    ensures room { IfOk result (λ made. length (programs.tables made.program).goals < 2 ^ 24) }
{
    let Ok(data) = read(alloc, text.as_bytes(), names) else {
        return Err(Fail::from("data with a fault"));
    };
    if data.len() >= 1_048_577 {
        return Err(Fail::from("too many data"));
    }
    match compile(alloc, &[], data.as_slice(), names, dialect) {
        Ok(compiled) => Ok(compiled),
        Err(_) => Err(Fail::from("a text with a fault")),
    }
}

// Demands the words of a goal.
pub(crate) fn expect_words(
    rt: &(impl Abort + Alloc<A = Global>),
    program: &Program,
    names: &Names,
    goal: u32,
    words: &str,
) -> Result<(), Fail> {
    let spelled = spell_goal(rt.alloc(), program, names, goal)?;
    assert_eq!(rt; spelled.as_str(), words);
    Ok(())
}

// Demands the words of a text's first run.
pub(crate) fn expect_run(
    rt: &(impl Abort + Alloc<A = Global>),
    made: &Compiled,
    names: &Names,
    words: &str,
) -> Result<(), Fail> {
    let query = made.queries.get(0).ok_or("no run")?;
    expect_words(rt, &made.program, names, query.goal, words)
}

// Demands the goal of a text's only run.
fn expect_goal(rt: &(impl Abort + Alloc<A = Global>), text: &str, goal: &str) -> Result<(), Fail>
    requires { length text.now ≤ 1048576 }
{
    let mut names = Names::new(rt.alloc());
    let made = compiled(rt.alloc(), text, &mut names, Dialect::Book)?;
    expect_run(rt, &made, &names, goal)
}

#[test]
fn goals_nest_to_the_right(rt: HostRuntime) -> Result<(), Fail> {
    let table = [
        (
            "(run* q (== q 1) (== q 2) (== q 3))",
            " both == _0 1 both == _0 2 == _0 3",
        ),
        (
            "(run* q (disj (== q 1) (== q 2) (== q 3)))",
            " either == _0 1 either == _0 2 == _0 3",
        ),
        (
            "(run* q (conde ((== q 1) fail) () ((== q 2))))",
            " either both == _0 1 fail either succeed == _0 2",
        ),
        (
            "(run* q (conj2 (disj2 succeed fail) (conj (conj) (disj))))",
            " both either succeed fail both succeed fail",
        ),
        (
            "(run* q (fresh (x y) (fresh (x) (== x y)) (== x q)))",
            " fresh 2 both fresh 1 == _3 _2 == _1 _0",
        ),
        (
            "(run* (x y) (== x 1) (fresh () (== x y)))",
            " fresh 2 both == pair _1 pair _2 () _0 both == _1 1 fresh 0 == _1 _2",
        ),
        (
            "(run* q (== q `(b (c ,q) ,(list q 'd) . ,q)))",
            " == _0 pair 'b pair pair 'c pair _0 () pair pair _0 pair 'd () _0",
        ),
    ];
    for (text, goal) in table {
        assert!(rt; text.len() <= 1_048_576);
        expect_goal(&rt, text, goal)?;
    }
    Ok(())
}

// Demands the words of a relation's body.
pub(crate) fn expect_body(
    rt: &(impl Abort + Alloc<A = Global>),
    made: &Compiled,
    names: &Names,
    relation: u32,
    words: &str,
) -> Result<(), Fail> {
    let relation = *made.program.relation(relation).ok_or("no relation")?;
    expect_words(rt, &made.program, names, relation.body, words)
}

#[test]
fn relations_keep_their_order(rt: HostRuntime) -> Result<(), Fail> {
    let text = "(run 3 q (s q 1)) (defrel (s a b) (l b)) (defrel (l x) (s x `(,x)) (l 'x))";
    let mut names = Names::new(rt.alloc());
    let made = compiled(rt.alloc(), text, &mut names, Dialect::Book)?;
    expect_run(&rt, &made, &names, " call 0 2 _0 1")?;
    expect_body(
        &rt,
        &made,
        &names,
        1,
        " both call 0 2 _0 pair _0 () call 1 1 'x",
    )
}
