//! Suspensions over a table: what was forced is kept, and deep ones are forced.

ghost use Rattle.std.specs.Prelude.{◌≡◌, ◌≤◌, ◌^◌, IfOk};
ghost use Rattle.kan_model.specs.Streams.Bounds.{top};
ghost use Rattle.kan_model.specs.Programs.Closed as programs;
ghost use Rattle.stream_core.specs.Tables.{Grows, IsTableOf};
ghost use Rattle.stream_core.specs.TableKinds.LinkedTables.{linked_table};
ghost use Rattle.stream_core.specs.TableKinds.PlainTables.{plain_table};
ghost use Rattle.susp_cells.specs.Tables.{table_of};
ghost use Rattle.engine_tests.specs.Small.{small_tables};

use crate::programs::small_program;
use kan_model::{Env, Program, Store};
use kan_plain::PlainStore;
use kan_terms::{ListOf, Memory};
use std::alloc::Global;
use std::process::Abort;
use std::sync::atomic::{AtomicU64, Ordering};
use std::test::Fail;
use stream_core::{LinkedNodes, Nodes, PlainNodes, Stream, Thunk, force, force_once};
use susp_cells::{Gate, OpenGate, SharedNodes, Table};

// The empty table for the small program.
fn small_table<'a, St: Store>(alloc: Global, program: &'a Program) -> PlainNodes<'a, St>
    requires { programs.tables program.now ≡ small_tables }
    ensures { IsTableOf program.now (plain_table St.meaning result) }
{
    PlainNodes::new(alloc, program)
}

// The empty shared table for the small program.
fn shared_table<'a, St: Store>(alloc: Global, program: &'a Program) -> Result<Table<'a, St>, Memory>
    requires { programs.tables program.now ≡ small_tables }
    ensures { IfOk result (λ made. IsTableOf program.now (table_of made)) }
{
    Table::new(alloc, program)
}

// The table for the small program whose ids own their suspensions.
fn linked_table<'a, St: Store>(alloc: Global, program: &'a Program) -> LinkedNodes<'a>
    requires { programs.tables program.now ≡ small_tables }
    ensures { IsTableOf program.now (linked_table St.meaning result) }
{
    LinkedNodes::new(alloc, program)
}

// A gate that counts the threads that pass it.
#[derive(Drop)]
struct Counter {
    passes: AtomicU64,
}

impl Gate for Counter {
    fn pass(&self, _who: u32) {
        self.passes.fetch_add(1, Ordering::SeqCst);
    }
}

// The suspension of a call that holds.
fn suspended_call<N: Nodes<St>, St: Store>(
    alloc: Global,
    program: &Program,
    nodes: &mut N,
) -> Result<N::Id, Memory>
    requires table { IsTableOf program.now (N.table nodes.old) }
    requires tables { programs.tables program.now ≡ small_tables }
    ensures belongs { IfOk result (N.table nodes.new).belongs }
    ensures room { IfOk result (λ id. top ((N.table nodes.new).tree id) ≤ 2 ^ 62) }
    ensures same { (N.table nodes.new).program ≡ (N.table nodes.old).program }
{
    let store = St::empty(alloc)?;
    let args = Env::of(program, Vec::new(alloc));
    let id = nodes.suspend(Thunk::Call {
        rel: 0,
        args,
        store,
    })?;
    Ok(id)
}

// Demands that a stream is one store and an end.
fn expect_one<I, St>(rt: &impl Abort, stream: &Stream<I, St>) {
    assert_eq!(rt; stream.heads.len(), 1);
    assert!(rt; stream.tail.is_none());
}

// Demands that nothing is kept for a suspension before it is forced, and then what it gave.
fn expect_kept<N: Nodes<St>, St: Store>(
    rt: &(impl Abort + Alloc<A = Global>),
    program: &Program,
    id: &N::Id,
    nodes: &mut N,
) -> Result<(), Fail>
    requires table { IsTableOf program.now (N.table nodes.old) }
    requires belongs { (N.table nodes.old).belongs id.now }
    requires room { top ((N.table nodes.old).tree id.now) ≤ 2 ^ 62 }
{
    let alloc = rt.alloc();
    let copy = nodes.again(id)?;
    assert!(rt; nodes.found(alloc, id)?.is_none());
    let stream = force(alloc, program, id, nodes)?;
    expect_one(rt, &stream);
    let found = nodes.found(alloc, &copy)?.ok_or("nothing is kept")?;
    expect_one(rt, &found);
    Ok(())
}

#[test]
fn what_was_forced_is_kept(rt: HostRuntime) -> Result<(), Fail> {
    let program = small_program(rt.alloc())?;
    let mut nodes: PlainNodes<PlainStore> = small_table(rt.alloc(), &program);
    let id = suspended_call(rt.alloc(), &program, &mut nodes)?;
    expect_kept(&rt, &program, &id, &mut nodes)
}

#[test]
fn what_was_forced_is_kept_in_a_shared_table(rt: HostRuntime) -> Result<(), Fail> {
    let program = small_program(rt.alloc())?;
    let table: Table<'_, PlainStore> = shared_table(rt.alloc(), &program)?;
    let mut nodes = SharedNodes::new(&rt, &table, &OpenGate, 0);
    let id = suspended_call(rt.alloc(), &program, &mut nodes)?;
    expect_kept(&rt, &program, &id, &mut nodes)
}

// A suspension that waits for another one, with nothing behind it.
fn around<N: Nodes<St>, St: Store>(
    alloc: Global,
    inner: N::Id,
    nodes: &mut N,
) -> Result<N::Id, Memory>
    requires belongs { (N.table nodes.old).belongs inner }
    requires room { top ((N.table nodes.old).tree inner) ≤ 2 ^ 62 }
    ensures belongs { IfOk result (N.table nodes.new).belongs }
    ensures room { IfOk result (λ id. top ((N.table nodes.new).tree id) ≤ 2 ^ 62) }
    ensures same { (N.table nodes.new).program ≡ (N.table nodes.old).program }
{
    let id = nodes.suspend(Thunk::Swap {
        heads: ListOf::new(alloc),
        tail: None,
        inner,
    })?;
    Ok(id)
}

// So many suspensions around one.
fn nested<N: Nodes<St>, St: Store>(
    alloc: Global,
    inner: N::Id,
    count: u32,
    nodes: &mut N,
) -> Result<N::Id, Memory>
    requires belongs { (N.table nodes.old).belongs inner }
    requires room { top ((N.table nodes.old).tree inner) ≤ 2 ^ 62 }
    ensures belongs { IfOk result (N.table nodes.new).belongs }
    ensures room { IfOk result (λ id. top ((N.table nodes.new).tree id) ≤ 2 ^ 62) }
    ensures same { (N.table nodes.new).program ≡ (N.table nodes.old).program }
{
    let mut id = inner;
    for _ in 0..count {
        id = around(alloc, id, nodes)?;
    }
    Ok(id)
}

#[test]
fn a_deep_suspension_is_forced(rt: HostRuntime) -> Result<(), Fail> {
    let alloc = rt.alloc();
    let program = small_program(alloc)?;
    let mut nodes: PlainNodes<PlainStore> = small_table(alloc, &program);
    let inner = suspended_call(alloc, &program, &mut nodes)?;
    let id = nested(alloc, inner, 100_000, &mut nodes)?;
    expect_kept(&rt, &program, &id, &mut nodes)
}

// Demands what a suspension gives that is given up.
fn expect_once<N: Nodes<St>, St: Store>(
    rt: &(impl Abort + Alloc<A = Global>),
    program: &Program,
    id: N::Id,
    nodes: &mut N,
) -> Result<(), Fail>
    requires table { IsTableOf program.now (N.table nodes.old) }
    requires belongs { (N.table nodes.old).belongs id }
    requires room { top ((N.table nodes.old).tree id) ≤ 2 ^ 62 }
{
    let stream = force_once(rt.alloc(), program, id, nodes)?;
    expect_one(rt, &stream);
    Ok(())
}

#[test]
fn a_deep_suspension_is_given_up(rt: HostRuntime) -> Result<(), Fail> {
    let alloc = rt.alloc();
    let program = small_program(alloc)?;
    let mut nodes = linked_table::<PlainStore>(alloc, &program);
    let inner = suspended_call::<LinkedNodes<'_>, PlainStore>(alloc, &program, &mut nodes)?;
    let id = nested::<LinkedNodes<'_>, PlainStore>(alloc, inner, 1_000_000, &mut nodes)?;
    expect_once::<LinkedNodes<'_>, PlainStore>(&rt, &program, id, &mut nodes)
}

// Demands that a suspension gives the same whether another id has it or not.
fn expect_twice<N: Nodes<St>, St: Store>(
    rt: &(impl Abort + Alloc<A = Global>),
    program: &Program,
    id: N::Id,
    nodes: &mut N,
) -> Result<(), Fail>
    requires table { IsTableOf program.now (N.table nodes.old) }
    requires belongs { (N.table nodes.old).belongs id }
    requires room { top ((N.table nodes.old).tree id) ≤ 2 ^ 62 }
{
    let copy = nodes.again(&id)?;
    let stream = force(rt.alloc(), program, &copy, nodes)?;
    expect_one(rt, &stream);
    expect_once(rt, program, id, nodes)
}

#[test]
fn a_shared_suspension_is_copied(rt: HostRuntime) -> Result<(), Fail> {
    let alloc = rt.alloc();
    let program = small_program(alloc)?;
    let mut nodes = linked_table::<PlainStore>(alloc, &program);
    let inner = suspended_call::<LinkedNodes<'_>, PlainStore>(alloc, &program, &mut nodes)?;
    let id = nested::<LinkedNodes<'_>, PlainStore>(alloc, inner, 1_000, &mut nodes)?;
    expect_twice::<LinkedNodes<'_>, PlainStore>(&rt, &program, id, &mut nodes)
}

#[test]
fn a_deep_suspension_is_dropped(rt: HostRuntime) -> Result<(), Fail> {
    let alloc = rt.alloc();
    let program = small_program(alloc)?;
    let mut nodes = linked_table::<PlainStore>(alloc, &program);
    let inner = suspended_call::<LinkedNodes<'_>, PlainStore>(alloc, &program, &mut nodes)?;
    let id = nested::<LinkedNodes<'_>, PlainStore>(alloc, inner, 1_000_000, &mut nodes)?;
    let copy = Nodes::<PlainStore>::again(&nodes, &id)?;
    drop(id);
    expect_once::<LinkedNodes<'_>, PlainStore>(&rt, &program, copy, &mut nodes)
}

#[test]
fn each_force_in_a_shared_table_passes_the_gate(rt: HostRuntime) -> Result<(), Fail> {
    let alloc = rt.alloc();
    let program = small_program(alloc)?;
    let table: Table<'_, PlainStore> = shared_table(alloc, &program)?;
    let gate = Counter {
        passes: AtomicU64::new(0),
    };
    let mut nodes = SharedNodes::new(&rt, &table, &gate, 0);
    let inner = suspended_call(alloc, &program, &mut nodes)?;
    let id = nested(alloc, inner, 100_000, &mut nodes)?;
    expect_kept(&rt, &program, &id, &mut nodes)?;
    assert_eq!(rt; gate.passes.load(Ordering::SeqCst), 100_001);
    Ok(())
}
