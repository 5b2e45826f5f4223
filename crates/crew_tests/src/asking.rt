//! Four threads ask for tickets while one pulls.

ghost use Rattle.std.specs.Prelude.{◌≡◌, ◌<◌, ◌≤◌, ◌+◌, ◌^◌, true, false, IfOk};
ghost use Rattle.pull_budget.specs.Seats.{view, IsSeatOf};

use kan_terms::Memory;
use pull_budget::{Budget, BudgetSeat, Denied, Spent};
use std::alloc::Global;
use std::sync::Wait;
use std::thread;
use std::thread::Threads;

/// What came of asking.
#[derive(Drop)]
pub struct Asked {
    /// The seat.
    pub seat: BudgetSeat,
    /// How many tickets it won.
    pub won: u64,
}

// Asks for tickets until it is told to stop.
fn ask<R: Wait>(rt: &R, budget: &Budget, mut seat: BudgetSeat) -> Asked
    requires seat { IsSeatOf budget.now seat }
    requires hired { (view seat).puller ≡ false }
    ensures seat { IsSeatOf budget.now result.seat }
    ensures hired { (view result.seat).puller ≡ false }
    ensures set { (view result.seat).set ≡ true }
{
    let mut won = 0u64;
    for _ in rt.forever() {
        if budget.stopped(&mut seat) {
            return Asked { seat, won };
        }
        match budget.ticket(&mut seat) {
            Ok(_) => won = won.wrapping_add(1),
            Err(_) => thread::yield_now(),
        }
    }
    unreachable!()
}

// Two ask.
fn two_ask<R: Threads + Wait + Sync>(
    rt: &R,
    budget: &Budget,
    one: BudgetSeat,
    two: BudgetSeat,
) -> (Asked, Asked)
    requires one { IsSeatOf budget.now one × ((view one).puller ≡ false) }
    requires two { IsSeatOf budget.now two × ((view two).puller ≡ false) }
    ensures one { IsSeatOf budget.now result.0.seat × ((view result.0.seat).puller ≡ false) }
    ensures two { IsSeatOf budget.now result.1.seat × ((view result.1.seat).puller ≡ false) }
{
    thread::join(
        rt,
        move ||
            requires { IsSeatOf budget.now one × ((view one).puller ≡ false) }
            ensures { IsSeatOf budget.entry.now result.seat
                × ((view result.seat).puller ≡ false) }
        { ask(rt, budget, one) },
        move ||
            requires { IsSeatOf budget.now two × ((view two).puller ≡ false) }
            ensures { IsSeatOf budget.entry.now result.seat
                × ((view result.seat).puller ≡ false) }
        { ask(rt, budget, two) },
    )
}

// Four ask.
fn four_ask<R: Threads + Wait + Sync>(
    rt: &R,
    budget: &Budget,
    one: BudgetSeat,
    two: BudgetSeat,
    three: BudgetSeat,
    four: BudgetSeat,
) -> ((Asked, Asked), (Asked, Asked))
    requires one { IsSeatOf budget.now one × ((view one).puller ≡ false) }
    requires two { IsSeatOf budget.now two × ((view two).puller ≡ false) }
    requires three { IsSeatOf budget.now three × ((view three).puller ≡ false) }
    requires four { IsSeatOf budget.now four × ((view four).puller ≡ false) }
    ensures one { IsSeatOf budget.now result.0.0.seat × ((view result.0.0.seat).puller ≡ false) }
    ensures two { IsSeatOf budget.now result.0.1.seat × ((view result.0.1.seat).puller ≡ false) }
    ensures three { IsSeatOf budget.now result.1.0.seat
        × ((view result.1.0.seat).puller ≡ false) }
    ensures four { IsSeatOf budget.now result.1.1.seat × ((view result.1.1.seat).puller ≡ false) }
{
    thread::join(
        rt,
        move ||
            requires { IsSeatOf budget.now one × ((view one).puller ≡ false)
                × IsSeatOf budget.now two × ((view two).puller ≡ false) }
            ensures { IsSeatOf budget.entry.now result.0.seat
                × ((view result.0.seat).puller ≡ false)
                × IsSeatOf budget.entry.now result.1.seat
                × ((view result.1.seat).puller ≡ false) }
        { two_ask(rt, budget, one, two) },
        move ||
            requires { IsSeatOf budget.now three × ((view three).puller ≡ false)
                × IsSeatOf budget.now four × ((view four).puller ≡ false) }
            ensures { IsSeatOf budget.entry.now result.0.seat
                × ((view result.0.seat).puller ≡ false)
                × IsSeatOf budget.entry.now result.1.seat
                × ((view result.1.seat).puller ≡ false) }
        { two_ask(rt, budget, three, four) },
    )
}

// Pulls so many times, and tells all to stop.
fn pull(budget: &Budget, mut seat: BudgetSeat, count: u32) -> BudgetSeat
    requires seat { IsSeatOf budget.now seat }
    requires puller { ((view seat).puller ≡ true) × ((view seat).made ≡ 0) }
    ensures seat { IsSeatOf budget.now result }
    ensures puller { ((view result).puller ≡ true) × ((view result).made ≡ count) }
{
    for _ in 0..count {
        budget.pulled(&mut seat);
        thread::yield_now();
    }
    budget.stop(&mut seat);
    seat
}

/// What a race came to.
#[derive(Drop)]
pub struct Raced {
    /// How many tickets the four threads won.
    pub won: u64,
    /// How many more there were at the end.
    pub more: u64,
    /// Why there was no other.
    pub last: Option<Denied>,
    /// The words.
    pub spent: Spent,
}

// Takes back what asked.
fn take_back(budget: &Budget, seat: &mut BudgetSeat, asked: Asked) -> u64
    requires seat { IsSeatOf budget.now seat.old }
    requires other { IsSeatOf budget.now asked.seat × ((view asked.seat).puller ≡ false) }
    ensures seat { IsSeatOf budget.now seat.new × (view seat.new ≡ view seat.old) }
    ensures won { result ≡ asked.won }
{
    let Asked { seat: other, won } = asked;
    budget.join(seat, other);
    won
}

// Asks until there is no ticket, at most so many times.
fn ask_on(budget: &Budget, seat: &mut BudgetSeat, most: u32) -> (u64, Option<Denied>)
    requires seat { IsSeatOf budget.now seat.old }
    requires puller { (view seat.old).puller ≡ true }
    ensures seat { IsSeatOf budget.now seat.new }
    ensures puller { (view seat.new).puller ≡ true }
{
    let mut won = 0u64;
    for _ in 0..most {
        match budget.ticket(seat) {
            Ok(_) => won = won.wrapping_add(1),
            Err(denied) => return (won, Some(denied)),
        }
    }
    (won, None)
}

// One pulls while four ask.
fn race_on<R: Threads + Wait + Sync>(
    rt: &R,
    budget: &Budget,
    mut seat: BudgetSeat,
    count: u32,
) -> (BudgetSeat, u64)
    requires seat { IsSeatOf budget.now seat }
    requires puller { ((view seat).puller ≡ true) × ((view seat).made ≡ 0) }
    ensures seat { IsSeatOf budget.now result.0 }
    ensures puller { (view result.0).puller ≡ true }
{
    let one = budget.split(&mut seat);
    let two = budget.split(&mut seat);
    let three = budget.split(&mut seat);
    let four = budget.split(&mut seat);
    let (mut seat, ((one, two), (three, four))) = thread::join(
        rt,
        move ||
            requires { IsSeatOf budget.now seat × ((view seat).puller ≡ true)
                × ((view seat).made ≡ 0) }
            ensures { IsSeatOf budget.entry.now result × ((view result).puller ≡ true) }
        { pull(budget, seat, count) },
        move ||
            requires { IsSeatOf budget.now one × ((view one).puller ≡ false)
                × IsSeatOf budget.now two × ((view two).puller ≡ false)
                × IsSeatOf budget.now three × ((view three).puller ≡ false)
                × IsSeatOf budget.now four × ((view four).puller ≡ false) }
            ensures { IsSeatOf budget.entry.now result.0.0.seat
                × ((view result.0.0.seat).puller ≡ false)
                × IsSeatOf budget.entry.now result.0.1.seat
                × ((view result.0.1.seat).puller ≡ false)
                × IsSeatOf budget.entry.now result.1.0.seat
                × ((view result.1.0.seat).puller ≡ false)
                × IsSeatOf budget.entry.now result.1.1.seat
                × ((view result.1.1.seat).puller ≡ false) }
        { four_ask(rt, budget, one, two, three, four) },
    );
    let mut won = take_back(budget, &mut seat, one);
    won = won.wrapping_add(take_back(budget, &mut seat, two));
    won = won.wrapping_add(take_back(budget, &mut seat, three));
    won = won.wrapping_add(take_back(budget, &mut seat, four));
    (seat, won)
}

/// One pulls `count` times while four ask, and then asks on itself.
pub fn race<R: Threads + Wait + Sync>(
    rt: &R,
    alloc: Global,
    ahead: u32,
    count: u32,
) -> Result<Raced, Memory>
    ensures bound { IfOk result (λ race. race.spent.begun ≤ race.spent.pulls + ahead) }
{
    let (budget, seat) = Budget::new(alloc, ahead)?;
    let (mut seat, won) = race_on(rt, &budget, seat, count);
    let (more, last) = ask_on(
        &budget,
        &mut seat,
        ahead.saturating_add(count).saturating_add(1),
    );
    let spent = budget.end(seat);
    Ok(Raced {
        won,
        more,
        last,
        spent,
    })
}
