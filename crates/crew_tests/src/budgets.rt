//! The numbers of a budget after a race.

use crate::asking::{Raced, race};
use pull_budget::{Budget, Denied};
use std::test::Fail;

// Whether a race in which tickets may run ahead by 8 came to what it must.
fn came_right(race: &Raced, pulls: u64) -> bool {
    let all = pulls.wrapping_add(8);
    let full =
        matches!(race.last, Some(Denied::Full(begun, seen)) if begun == all && seen == pulls);
    let words = race.spent.pulls == pulls && race.spent.begun == all;
    full && words && race.won.wrapping_add(race.more) == all
}

#[test]
fn tickets_run_ahead_by_eight_and_no_more(rt: HostRuntime) -> Result<(), Fail> {
    let Ok(race) = race(&rt, rt.alloc(), 8, 1000) else {
        return Err(Fail::from("no memory"));
    };
    assert!(rt; came_right(&race, 1000));
    Ok(())
}

#[test]
fn a_seat_is_told_to_stop(rt: HostRuntime) -> Result<(), Fail> {
    let Ok((budget, mut seat)) = Budget::new(rt.alloc(), 0) else {
        return Err(Fail::from("no memory"));
    };
    let mut other = budget.split(&mut seat);
    assert!(rt; !budget.stopped(&mut other));
    budget.stop(&mut seat);
    assert!(rt; budget.stopped(&mut other));
    budget.join(&mut seat, other);
    let spent = budget.end(seat);
    assert!(rt; spent.pulls == 0 && spent.begun == 0);
    Ok(())
}
