//! Streams of goals, appended and bound, over the table of one thread and over a shared one: how
//! many stores they have, and how many the force of their suspension has.

ghost use Rattle.std.specs.Prelude.{◌≡◌, ◌<◌, [], IfOk, IfSome};
ghost use Rattle.kan_model.specs.Programs.Closed as programs;
ghost use Rattle.kan_model.specs.Programs.Environments.{terms_of};
ghost use Rattle.stream_core.specs.Tables.{IsTableOf, OnlyAdds};
ghost use Rattle.stream_core.specs.TableKinds.LinkedTables.{linked_table};
ghost use Rattle.stream_core.specs.TableKinds.PlainTables.{plain_table};
ghost use Rattle.susp_cells.specs.Tables.{table_of};
ghost use Rattle.engine_tests.specs.Small.{endless_tables};
ghost use Rattle.engine_tests.specs.Bare.{IsBare, HasRoom};

use crate::endless::endless_program;
use kan_model::{Env, Program, Store};
use kan_plain::PlainStore;
use kan_terms::Memory;
use std::alloc::Global;
use std::process::Abort;
use std::test::Fail;
use stream_core::{LinkedNodes, Nodes, PlainNodes, Stream, append, bind_all, force, run_goal};
use susp_cells::{OpenGate, SharedNodes, Table};

// How many stores a stream has, and whether it goes on behind them.
#[derive(Clone, Copy)]
struct Shape {
    heads: usize,
    goes_on: bool,
}

// A stream that goes on after so many stores.
fn going(heads: usize) -> Shape {
    Shape {
        heads,
        goes_on: true,
    }
}

// A stream that ends after so many stores.
fn ending(heads: usize) -> Shape {
    Shape {
        heads,
        goes_on: false,
    }
}

// Demands how many stores a stream has, and whether it goes on.
fn expect_shape<I, St>(rt: &impl Abort, stream: &Stream<I, St>, shape: Shape) {
    assert_eq!(rt; stream.heads.len(), shape.heads);
    assert_eq!(rt; stream.tail.is_some(), shape.goes_on);
}

// Demands the shape of the force of the suspension with which a stream goes on, where it does.
#[tactic(auto, using(crate::proofs::BareLaws::grows_stay))]
fn expect_force<N: Nodes<St>, St: Store>(
    rt: &(impl Abort + Alloc<A = Global>),
    program: &Program,
    tail: &Option<N::Id>,
    forced: Shape,
    nodes: &mut N,
) -> Result<(), Fail>
    requires table { IsTableOf program.now (N.table nodes.old) }
    requires room { IfSome tail.now (HasRoom (N.table nodes.old)) }
    ensures table { IsTableOf program.now (N.table nodes.new) }
{
    if let Some(id) = tail {
        let stream = force(rt.alloc(), program, id, nodes)?;
        expect_shape(rt, &stream, forced);
    }
    Ok(())
}

// Demands the shapes of a stream and of its suspension's force, where it goes on.
fn expect_stream<N: Nodes<St>, St: Store>(
    rt: &(impl Abort + Alloc<A = Global>),
    program: &Program,
    stream: &Stream<N::Id, St>,
    shapes: (Shape, Shape),
    nodes: &mut N,
) -> Result<(), Fail>
    requires table { IsTableOf program.now (N.table nodes.old) }
    requires bare { IsBare (N.table nodes.old) St.meaning stream.now }
    ensures table { IsTableOf program.now (N.table nodes.new) }
{
    expect_shape(rt, stream, shapes.0);
    expect_force(rt, program, &stream.tail, shapes.1, nodes)
}

// The environment without slots.
fn no_slots(alloc: Global, program: &Program) -> Env
    ensures { terms_of result ≡ [] }
{
    Env::of(program, Vec::new(alloc))
}

// The stream of a goal at the empty store.
fn run_alone<N: Nodes<St>, St: Store>(
    alloc: Global,
    program: &Program,
    goal: u32,
    nodes: &mut N,
) -> Result<Stream<N::Id, St>, Memory>
    requires table { IsTableOf program.now (N.table nodes.old) }
    requires tables { programs.tables program.now ≡ endless_tables }
    requires there { goal < 4 }
    ensures bare { IfOk result (IsBare (N.table nodes.new) St.meaning) }
    ensures adds { OnlyAdds (N.table nodes.old) (N.table nodes.new) }
{
    let env = no_slots(alloc, program);
    let store = St::empty(alloc)?;
    let made = run_goal(alloc, program, goal, &env, store, nodes)?;
    Ok(made)
}

// The streams of two goals, appended.
fn run_both<N: Nodes<St>, St: Store>(
    alloc: Global,
    program: &Program,
    goals: (u32, u32),
    nodes: &mut N,
) -> Result<Stream<N::Id, St>, Memory>
    requires table { IsTableOf program.now (N.table nodes.old) }
    requires tables { programs.tables program.now ≡ endless_tables }
    requires left { goals.0 < 4 }
    requires right { goals.1 < 4 }
    ensures bare { IfOk result (IsBare (N.table nodes.new) St.meaning) }
    ensures adds { OnlyAdds (N.table nodes.old) (N.table nodes.new) }
{
    let left = run_alone(alloc, program, goals.0, nodes)?;
    let right = run_alone(alloc, program, goals.1, nodes)?;
    let made = append(alloc, left, right, nodes)?;
    Ok(made)
}

// A goal at each store of the streams of two goals, appended.
fn run_bound<N: Nodes<St>, St: Store>(
    alloc: Global,
    program: &Program,
    goals: (u32, u32),
    next: u32,
    nodes: &mut N,
) -> Result<Stream<N::Id, St>, Memory>
    requires table { IsTableOf program.now (N.table nodes.old) }
    requires tables { programs.tables program.now ≡ endless_tables }
    requires left { goals.0 < 4 }
    requires right { goals.1 < 4 }
    requires next { next < 4 }
    ensures bare { IfOk result (IsBare (N.table nodes.new) St.meaning) }
    ensures adds { OnlyAdds (N.table nodes.old) (N.table nodes.new) }
{
    let stream = run_both(alloc, program, goals, nodes)?;
    let env = no_slots(alloc, program);
    let made = bind_all(alloc, program, next, &env, stream, nodes)?;
    Ok(made)
}

// Demands the shapes of a goal's stream.
#[tactic(auto, using(crate::proofs::BareLaws::adds_stay))]
fn expect_alone<N: Nodes<St>, St: Store>(
    rt: &(impl Abort + Alloc<A = Global>),
    program: &Program,
    goal: u32,
    shapes: (Shape, Shape),
    nodes: &mut N,
) -> Result<(), Fail>
    requires table { IsTableOf program.now (N.table nodes.old) }
    requires tables { programs.tables program.now ≡ endless_tables }
    requires there { goal < 4 }
    ensures table { IsTableOf program.now (N.table nodes.new) }
{
    let stream = run_alone(rt.alloc(), program, goal, nodes)?;
    expect_stream(rt, program, &stream, shapes, nodes)
}

// Demands the shapes of two goals' streams that are appended.
#[tactic(auto, using(crate::proofs::BareLaws::adds_stay))]
fn expect_both<N: Nodes<St>, St: Store>(
    rt: &(impl Abort + Alloc<A = Global>),
    program: &Program,
    goals: (u32, u32),
    shapes: (Shape, Shape),
    nodes: &mut N,
) -> Result<(), Fail>
    requires table { IsTableOf program.now (N.table nodes.old) }
    requires tables { programs.tables program.now ≡ endless_tables }
    requires left { goals.0 < 4 }
    requires right { goals.1 < 4 }
    ensures table { IsTableOf program.now (N.table nodes.new) }
{
    let stream = run_both(rt.alloc(), program, goals, nodes)?;
    expect_stream(rt, program, &stream, shapes, nodes)
}

// Demands the shapes of the stream of a goal that is bound to two goals' streams.
#[tactic(auto, using(crate::proofs::BareLaws::adds_stay))]
fn expect_bound<N: Nodes<St>, St: Store>(
    rt: &(impl Abort + Alloc<A = Global>),
    program: &Program,
    goals: (u32, u32),
    next: u32,
    shapes: (Shape, Shape),
    nodes: &mut N,
) -> Result<(), Fail>
    requires table { IsTableOf program.now (N.table nodes.old) }
    requires tables { programs.tables program.now ≡ endless_tables }
    requires left { goals.0 < 4 }
    requires right { goals.1 < 4 }
    requires next { next < 4 }
    ensures table { IsTableOf program.now (N.table nodes.new) }
{
    let stream = run_bound(rt.alloc(), program, goals, next, nodes)?;
    expect_stream(rt, program, &stream, shapes, nodes)
}

// Demands the shapes of each goal's stream.
fn expect_goals<N: Nodes<St>, St: Store>(
    rt: &(impl Abort + Alloc<A = Global>),
    program: &Program,
    nodes: &mut N,
) -> Result<(), Fail>
    requires table { IsTableOf program.now (N.table nodes.old) }
    requires tables { programs.tables program.now ≡ endless_tables }
    ensures table { IsTableOf program.now (N.table nodes.new) }
{
    expect_alone(rt, program, 0, (ending(1), ending(0)), nodes)?;
    expect_alone(rt, program, 1, (going(0), going(1)), nodes)?;
    expect_alone(rt, program, 2, (going(1), going(1)), nodes)?;
    expect_alone(rt, program, 3, (going(0), ending(1)), nodes)
}

// Demands the shapes of streams that are appended. A suspended one lets the other go first.
fn expect_appended<N: Nodes<St>, St: Store>(
    rt: &(impl Abort + Alloc<A = Global>),
    program: &Program,
    nodes: &mut N,
) -> Result<(), Fail>
    requires table { IsTableOf program.now (N.table nodes.old) }
    requires tables { programs.tables program.now ≡ endless_tables }
    ensures table { IsTableOf program.now (N.table nodes.new) }
{
    expect_both(rt, program, (0, 0), (ending(2), ending(0)), nodes)?;
    expect_both(rt, program, (0, 2), (going(2), going(1)), nodes)?;
    expect_both(rt, program, (2, 0), (going(1), going(2)), nodes)?;
    expect_both(rt, program, (2, 1), (going(1), going(0)), nodes)?;
    expect_both(rt, program, (3, 0), (going(0), ending(2)), nodes)
}

// Demands the shapes of streams that a goal is bound to.
fn expect_each<N: Nodes<St>, St: Store>(
    rt: &(impl Abort + Alloc<A = Global>),
    program: &Program,
    nodes: &mut N,
) -> Result<(), Fail>
    requires table { IsTableOf program.now (N.table nodes.old) }
    requires tables { programs.tables program.now ≡ endless_tables }
{
    expect_bound(rt, program, (0, 0), 0, (ending(2), ending(0)), nodes)?;
    expect_bound(rt, program, (0, 0), 2, (going(1), going(1)), nodes)?;
    expect_bound(rt, program, (2, 0), 0, (going(1), going(2)), nodes)?;
    expect_bound(rt, program, (0, 0), 3, (going(0), going(0)), nodes)
}

// Demands the shapes of all these streams.
fn expect_shapes<N: Nodes<St>, St: Store>(
    rt: &(impl Abort + Alloc<A = Global>),
    program: &Program,
    nodes: &mut N,
) -> Result<(), Fail>
    requires table { IsTableOf program.now (N.table nodes.old) }
    requires tables { programs.tables program.now ≡ endless_tables }
{
    expect_goals(rt, program, nodes)?;
    expect_appended(rt, program, nodes)?;
    expect_each(rt, program, nodes)
}

// The empty table for the program.
fn plain_nodes<'a, St: Store>(alloc: Global, program: &'a Program) -> PlainNodes<'a, St>
    requires { programs.tables program.now ≡ endless_tables }
    ensures { IsTableOf program.now (plain_table St.meaning result) }
{
    PlainNodes::new(alloc, program)
}

// The table whose ids own their suspensions.
fn linked_nodes<'a, St: Store>(alloc: Global, program: &'a Program) -> LinkedNodes<'a>
    requires { programs.tables program.now ≡ endless_tables }
    ensures { IsTableOf program.now (linked_table St.meaning result) }
{
    LinkedNodes::new(alloc, program)
}

// The empty shared table for it.
fn shared_table<'a, St: Store>(alloc: Global, program: &'a Program) -> Result<Table<'a, St>, Memory>
    requires { programs.tables program.now ≡ endless_tables }
    ensures { IfOk result (λ made. IsTableOf program.now (table_of made)) }
{
    Table::new(alloc, program)
}

#[test]
fn streams_over_the_table_of_one_thread(rt: HostRuntime) -> Result<(), Fail> {
    let program = endless_program(rt.alloc())?;
    let mut nodes: PlainNodes<PlainStore> = plain_nodes(rt.alloc(), &program);
    expect_shapes(&rt, &program, &mut nodes)
}

#[test]
fn streams_over_suspensions_that_ids_own(rt: HostRuntime) -> Result<(), Fail> {
    let program = endless_program(rt.alloc())?;
    let mut nodes = linked_nodes::<PlainStore>(rt.alloc(), &program);
    expect_shapes::<LinkedNodes<'_>, PlainStore>(&rt, &program, &mut nodes)
}

#[test]
fn streams_over_a_shared_table(rt: HostRuntime) -> Result<(), Fail> {
    let program = endless_program(rt.alloc())?;
    let table: Table<'_, PlainStore> = shared_table(rt.alloc(), &program)?;
    let mut nodes = SharedNodes::new(&rt, &table, &OpenGate, 0);
    expect_shapes(&rt, &program, &mut nodes)
}
