//! Ground terms: copies, and the values of templates at slot values.

ghost use Rattle.std.specs.Prelude.{◌≡◌, ◌∷◌, [], ◌++◌, IfOk, OnOk};
ghost use Rattle.kan_terms.specs.Spelling.{SpellsTree, spelling};
ghost use Rattle.kan_terms.specs.Valuations.{value, value_at};
ghost use Rattle.kan_model.specs.Programs.Closed as programs;
ghost use Rattle.kan_model.specs.Programs.Nodes.{term_entry};
ghost use Rattle.kan_model.specs.Programs.Tables.{template_of};
ghost use Rattle.ground_meaning.specs.Values.{Puts, value_of};

use kan_model::{Program, TermNode};
use kan_terms::{Ground, Grounds, Mark, Memory};
use std::alloc::Global;

// The ground term of the marks that spell it.
pub(crate) fn made(marks: Vec<Mark>) -> Ground
    requires { SpellsTree marks.items }
    ensures { spelling result ≡ marks.items }
{
    Ground::of_marks(marks).unwrap()
}

// A ground term once more.
fn again(alloc: Global, term: &Ground) -> Result<Ground, Memory>
    ensures { IfOk result (λ copy. copy ≡ term.now) }
{
    let mut marks = Vec::new(alloc);
    marks.extend_from_slice(term.marks())?;
    Ok(made(marks))
}

// Puts a ground term behind others.
pub(crate) fn put(term: Ground, into: &mut Grounds) -> Result<(), Memory>
    ensures { OnOk result (into.new ≡ into.old ++ term ∷ []) }
{
    match into.push(term) {
        Ok(()) => Ok(()),
        Err(_) => Err(Memory),
    }
}

// Puts copies of ground terms behind others.
fn put_all(alloc: Global, more: &Grounds, into: &mut Grounds) -> Result<(), Memory>
    ensures { OnOk result (into.new ≡ into.old ++ more.now) }
{
    for term in more.items() {
        put(again(alloc, term)?, into)?;
    }
    Ok(())
}

// Slot values once more.
pub(crate) fn copied(alloc: Global, values: &Grounds) -> Result<Grounds, Memory>
    ensures { IfOk result (λ copies. copies ≡ values.now) }
{
    let mut copies = Grounds::new(alloc);
    put_all(alloc, values, &mut copies)?;
    Ok(copies)
}

// Slot values with others behind them.
pub(crate) fn extended(alloc: Global, values: &Grounds, more: &Grounds) -> Result<Grounds, Memory>
    ensures { IfOk result (λ all. all ≡ values.now ++ more.now) }
{
    let mut all = copied(alloc, values)?;
    put_all(alloc, more, &mut all)?;
    Ok(all)
}

// The template at a place, and the empty list past the end.
fn template_at(program: &Program, at: u32) -> TermNode
    ensures { programs.template program.now at
        ≡ template_of (programs.templates program.now) (term_entry result) }
{
    match program.term(at) {
        Some(node) => *node,
        None => TermNode::Nil,
    }
}

// Puts a mark behind others.
fn put_mark(mark: Mark, marks: &mut Vec<Mark>) -> Result<(), Memory>
    ensures { OnOk result (marks.new.items ≡ marks.old.items ++ mark ∷ []) }
{
    marks.push(mark)?;
    Ok(())
}

// Puts the marks of a slot's value behind others.
fn put_slot(values: &Grounds, slot: u32, marks: &mut Vec<Mark>) -> Result<(), Memory>
    ensures { OnOk result
        (marks.new.items ≡ marks.old.items ++ spelling (value_at values.now slot)) }
{
    match values.get(slot as usize) {
        Some(term) => {
            marks.extend_from_slice(term.marks())?;
            Ok(())
        }
        None => put_mark(Mark::Nil, marks),
    }
}

// Puts the marks of a template's value behind others, but for those of a pair's parts, which wait.
#[tactic(auto, using(crate::proofs::ValueLaws::piece_put))]
fn put_node(
    program: &Program,
    values: &Grounds,
    node: TermNode,
    marks: &mut Vec<Mark>,
    waiting: &mut Vec<u32>,
) -> Result<(), Memory>
    ensures { OnOk result (Puts (value_of program.now values.now)
        (value values.now (template_of (programs.templates program.now) (term_entry node)))
        marks.old.items marks.new.items waiting.old.items waiting.new.items) }
{
    match node {
        TermNode::Slot(slot) => put_slot(values, slot, marks),
        TermNode::Sym(name) => put_mark(Mark::Sym(name), marks),
        TermNode::Str(text) => put_mark(Mark::Str(text), marks),
        TermNode::Num(number) => put_mark(Mark::Num(number), marks),
        TermNode::Truth(truth) => put_mark(Mark::Truth(truth), marks),
        TermNode::Nil => put_mark(Mark::Nil, marks),
        TermNode::Pair(first, rest) => {
            marks.push(Mark::Pair)?;
            waiting.push(rest)?;
            waiting.push(first)?;
            Ok(())
        }
    }
}

// The marks of a template's value.
pub(crate) fn marks_of(
    alloc: Global,
    program: &Program,
    values: &Grounds,
    term: u32,
) -> Result<Vec<Mark>, Memory>
    ensures { IfOk result (λ marks. marks.items ≡ spelling (value_of program.now values.now term)) }
{
    let mut marks = Vec::new(alloc);
    let mut waiting = Vec::new(alloc);
    waiting.push(term)?;
    while let Some(next) = waiting.pop() {
        let node = template_at(program, next);
        put_node(program, values, node, &mut marks, &mut waiting)?;
    }
    Ok(marks)
}
