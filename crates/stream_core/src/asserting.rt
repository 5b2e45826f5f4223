//! Goals whose streams end at once: they succeed, fail or assert a primitive.

ghost use Rattle.std.specs.Prelude.{◌≡◌, [], ◌∷◌, map, option_map, true, IfOk};
ghost use Rattle.std.specs.List.{list_all};
ghost use Rattle.kan_terms.specs.Terms.{tree};
ghost use Rattle.kan_model.specs.Programs.Goals.{Primitive};
ghost use Rattle.kan_model.specs.Programs.Closed as programs;
ghost use Rattle.kan_model.specs.Programs.Environments.{terms_of};
ghost use Rattle.kan_model.specs.Programs.Nodes.{goal_entry};
ghost use Rattle.kan_model.specs.Programs.Scope.{all_below, sides_below};
ghost use Rattle.kan_model.specs.Stores.Prims.{prim as primitive};
ghost use Rattle.kan_model.specs.Streams.Running.{assert as asserted, instance, run};
ghost use Rattle.kan_model.specs.Streams.Stream as model;
ghost use Rattle.stream_core.specs.AtomicGoals.{ends_at_once, ends_with, of_kind};

use crate::appending::put_last;
use crate::streams::Stores;
use kan_model::{Env, GoalNode, Kind, Prim, Program, Store};
use kan_terms::{ListOf, Memory, Term};
use std::alloc::Global;

// The list of one store.
fn only<St: Drop>(alloc: Global, store: St) -> Result<Stores<St>, Memory>
    ensures { IfOk result (λ made. made ≡ store ∷ []) }
{
    let mut stores = ListOf::new(alloc);
    put_last(&mut stores, store)?;
    Ok(stores)
}

// The store with a primitive, where it is kept.
fn with_prim<St: Store>(alloc: Global, prim: &Prim, store: St) -> Result<Option<St>, Memory>
    requires { sides_below (St.meaning store).counter (primitive prim.now) ≡ true }
    ensures { IfOk result (λ made. ends_with (option_map St.meaning made)
        ≡ asserted (St.meaning store) (primitive prim.now)) }
{
    store.assert_owned(alloc, prim)
}

// The store in which two templates are equal, where it is kept.
fn equated<St: Store>(
    alloc: Global,
    program: &Program,
    left: u32,
    right: u32,
    env: &Env,
    store: St,
) -> Result<Option<St>, Memory>
    requires { list_all (all_below (St.meaning store).counter) (terms_of env.now) ≡ true }
    ensures { IfOk result (λ made. ends_with (option_map St.meaning made) ≡ asserted
        (St.meaning store)
        (Primitive.same (instance (terms_of env.now) (programs.template program.now left))
        (instance (terms_of env.now) (programs.template program.now right)))) }
{
    let left = env.value(alloc, program, left)?;
    let right = env.value(alloc, program, right)?;
    let made = with_prim(alloc, &Prim::Same(left, right), store)?;
    Ok(made)
}

// The store in which two templates are different, where it is kept.
fn told_apart<St: Store>(
    alloc: Global,
    program: &Program,
    left: u32,
    right: u32,
    env: &Env,
    store: St,
) -> Result<Option<St>, Memory>
    requires { list_all (all_below (St.meaning store).counter) (terms_of env.now) ≡ true }
    ensures { IfOk result (λ made. ends_with (option_map St.meaning made) ≡ asserted
        (St.meaning store)
        (Primitive.differ (instance (terms_of env.now) (programs.template program.now left))
        (instance (terms_of env.now) (programs.template program.now right)))) }
{
    let left = env.value(alloc, program, left)?;
    let right = env.value(alloc, program, right)?;
    let made = with_prim(alloc, &Prim::Differ(left, right), store)?;
    Ok(made)
}

// The primitive that a term is of a type.
fn of_kind(kind: Kind, term: Term) -> Prim
    ensures { primitive result ≡ of_kind kind (tree term) }
{
    match kind {
        Kind::Symbol => Prim::Symbol(term),
        Kind::Number => Prim::Number(term),
        Kind::Text => Prim::Text(term),
    }
}

// The store in which a template is of a type, where it is kept.
fn typed<St: Store>(
    alloc: Global,
    program: &Program,
    kind: Kind,
    term: u32,
    env: &Env,
    store: St,
) -> Result<Option<St>, Memory>
    requires { list_all (all_below (St.meaning store).counter) (terms_of env.now) ≡ true }
    ensures { IfOk result (λ made. ends_with (option_map St.meaning made) ≡ asserted
        (St.meaning store)
        (of_kind kind (instance (terms_of env.now) (programs.template program.now term)))) }
{
    let term = env.value(alloc, program, term)?;
    let made = with_prim(alloc, &of_kind(kind, term), store)?;
    Ok(made)
}

// The store in which a symbol stands nowhere in a template, where it is kept.
fn kept_out<St: Store>(
    alloc: Global,
    program: &Program,
    tag: u32,
    term: u32,
    env: &Env,
    store: St,
) -> Result<Option<St>, Memory>
    requires { list_all (all_below (St.meaning store).counter) (terms_of env.now) ≡ true }
    ensures { IfOk result (λ made. ends_with (option_map St.meaning made) ≡ asserted
        (St.meaning store)
        (Primitive.absent tag (instance (terms_of env.now) (programs.template program.now term)))) }
{
    let term = env.value(alloc, program, term)?;
    let made = with_prim(alloc, &Prim::Absent(tag, term), store)?;
    Ok(made)
}

/// Whether the stream of a goal ends with its stores: then it has one at most.
pub(crate) fn ends_at_once(node: GoalNode) -> bool
    ensures { result ≡ ends_at_once (goal_entry node) }
{
    !matches!(
        node,
        GoalNode::Both(_, _)
            | GoalNode::Either(_, _)
            | GoalNode::Fresh(_, _)
            | GoalNode::Later(_)
            | GoalNode::Call(_, _, _)
    )
}

/// The one store of a goal whose stream ends with it, where it has one.
pub(crate) fn store_at_once<St: Store>(
    alloc: Global,
    program: &Program,
    node: GoalNode,
    env: &Env,
    store: St,
) -> Result<Option<St>, Memory>
    requires ends { ends_at_once (goal_entry node) ≡ true }
    requires below { list_all (all_below (St.meaning store).counter) (terms_of env.now) ≡ true }
    ensures { IfOk result (λ made. ends_with (option_map St.meaning made) ≡ run
        (programs.entry_goal program.now (goal_entry node)) (terms_of env.now)
        (St.meaning store)) }
{
    match node {
        GoalNode::Succeed => Ok(Some(store)),
        GoalNode::Fail => Ok(None),
        GoalNode::Same(left, right) => equated(alloc, program, left, right, env, store),
        GoalNode::Differ(left, right) => told_apart(alloc, program, left, right, env, store),
        GoalNode::Symbol(term) => typed(alloc, program, Kind::Symbol, term, env, store),
        GoalNode::Number(term) => typed(alloc, program, Kind::Number, term, env, store),
        GoalNode::Text(term) => typed(alloc, program, Kind::Text, term, env, store),
        GoalNode::Absent(tag, term) => kept_out(alloc, program, tag, term, env, store),
        _ => unreachable!(),
    }
}

/// The same as a list.
pub(crate) fn stores_at_once<St: Store>(
    alloc: Global,
    program: &Program,
    node: GoalNode,
    env: &Env,
    store: St,
) -> Result<Stores<St>, Memory>
    requires ends { ends_at_once (goal_entry node) ≡ true }
    requires below { list_all (all_below (St.meaning store).counter) (terms_of env.now) ≡ true }
    ensures { IfOk result (λ made. model.Stream.ends (map St.meaning made) ≡ run
        (programs.entry_goal program.now (goal_entry node)) (terms_of env.now)
        (St.meaning store)) }
{
    match store_at_once(alloc, program, node, env, store)? {
        Some(longer) => only(alloc, longer),
        None => Ok(ListOf::new(alloc)),
    }
}
