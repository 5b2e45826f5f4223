//! Searches, which take the answers of a run's stream.

use crate::batch::{Batch, Ended, Next};
use crate::limit::{is_reached, less_one};
use crate::pulling::{Pulled, pull, start};
use kan_model::{Program, Query, Store};
use kan_terms::{ListOf, Memory};
use std::alloc::Global;
use std::marker::Model;
use stream_core::{LinkedNodes, Nodes, Stores, put_last};

// How many answers a batch has at most.
const GREATEST_BATCH: usize = 1024;

/// What is left of a run: the answers that may still be given, the pulls that may still be made,
/// and the stream, whose suspensions are in a table.
#[derive(Drop)]
pub struct Search<'a, St: Store, N: Nodes<St> + Drop> {
    // How many answers may still be given, where that is limited.
    limit: Option<u64>,
    // How many pulls may still be made.
    fuel: u64,
    // How many pulls a batch makes at most.
    round: u32,
    // How many pulls were made.
    pulls: u64,
    program: &'a Program,
    nodes: N,
    // The stores at the front of the stream, the next one last.
    heads: Vec<St>,
    // How the stream goes on behind them.
    tail: Option<N::Id>,
    // Whether memory was wanting, so that nothing is known of what is left.
    spent: bool,
}

impl<'a, St: Store, N: Nodes<St> + Drop> Model for Search<'a, St, N> {
    ghost use Rattle.kan_model.specs.Programs.Closed as programs;
    ghost use Rattle.kan_search.specs.Rests.{Rest, rest_code, rest_of, IsSound};

    ghost Value = { Rest };

    ghost coded = { rest_code };

    ghost view = { λ s. rest_of (N.table s.nodes).tree St.meaning (programs.meaning s.program.now)
        s.heads.items s.tail s.limit s.fuel s.round s.pulls s.spent };

    ghost invariant = { λ s. IsSound (N.table s.nodes) s.program.now s.tail s.pulls s.fuel };
}

impl<'a, St: Store, N: Nodes<St> + Drop> Search<'a, St, N> {
    ghost use Rattle.std.specs.Prelude.{◌≡◌, ◌+◌, ◌<◌, ◌≤◌, ℕ, true, false, [], ◌∷◌, length, map};
    ghost use Rattle.std.specs.Prelude.{IfOk, IfSome, IfNone, OnOk, OnErr, IsErr};
    ghost use Rattle.kan_model.specs.Programs.Tables.{are_closed};
    ghost use Rattle.kan_model.specs.Programs.Scope.{is_small};
    ghost use Rattle.kan_model.specs.Programs.Closed as programs;
    ghost use Rattle.kan_model.specs.Streams.Taking.{take_query, with_answer, with_pull};
    ghost use Rattle.kan_search.specs.Batches.{Advances, GaveAll, batch_then, greatest_batch};
    ghost use Rattle.kan_search.specs.Searches.{answers_left, stream_left, pulls_made, round_of};
    ghost use Rattle.kan_search.specs.Searches.{is_spent};
    ghost use Rattle.kan_search.specs.Searches.{ComesNext};
    ghost use Rattle.kan_search.specs.SolutionsLeft.{KeepsSolutions, MissesNone};
    ghost use Rattle.kan_search.specs.Waiting.{GivesNone, WantsPull};

    /// The search of a run over a table of its program, at a fuel from 1 to 1,000,000. A batch
    /// makes at most so many pulls as a round has, from 1 to 65,536.
    pub fn open(
        alloc: Global,
        program: &'a Program,
        nodes: N,
        query: &Query,
        fuel: u64,
        round: u32,
    ) -> Result<Search<'a, St, N>, Memory>
        requires table { (N.table nodes).program ≡ programs.meaning program.now }
        requires closed { are_closed (programs.tables program.now) (query.now.goal ∷ []) ≡ true }
        requires small { is_small (programs.meaning program.now) ≡ true }
        requires fuel { 1 ≤ fuel × (fuel ≤ 1000000) }
        requires round { 1 ≤ round × (round ≤ 65536) }
        ensures left { IfOk result (λ search. answers_left search ≡ take_query
            (programs.meaning program.now) fuel (programs.query_of program.now query.now)) }
        ensures pulls { IfOk result (λ search. pulls_made search ≡ 0) }
        ensures round { IfOk result (λ search. round_of search ≡ round) }
        ensures whole { IfOk result (λ search. is_spent search ≡ false) }
        ensures misses_none { IfOk result (λ search. MissesNone (programs.meaning program.now)
            (programs.query_of program.now query.now) fuel (answers_left search)) }
    {
        let mut nodes = nodes;
        let pulled = start(alloc, program, query.goal, &mut nodes)?;
        let Pulled { heads, tail } = pulled;
        Ok(Search {
            limit: query.limit,
            fuel,
            round,
            pulls: 0,
            program,
            nodes,
            heads,
            tail,
            spent: false,
        })
    }

    /// How many pulls were made. It takes no memory.
    pub fn pulls(&self) -> u64
        ensures { result ≡ (pulls_made self.now) }
    {
        self.pulls
    }

    // The next store of the stream, where it has one before a pull and more answers are wanted.
    fn next_head(&mut self) -> Option<St>
        ensures some { IfSome result (λ store. answers_left self.old
            ≡ with_answer (St.meaning store) (answers_left self.new)) }
        ensures none { IfNone result (GivesNone self.new.limit self.new.heads ×
            (answers_left self.new ≡ answers_left self.old)) }
        ensures fewer { IfSome result (λ _. length self.new.heads < length self.old.heads) }
        ensures pulls { pulls_made self.new ≡ pulls_made self.old }
        ensures round { round_of self.new ≡ round_of self.old }
        ensures spent { is_spent self.new ≡ is_spent self.old }
    {
        if is_reached(self.limit) {
            return None;
        }
        let store = self.heads.pop()?;
        self.limit = less_one(self.limit);
        Some(store)
    }

    // Gives stores until a batch has its answers or only a pull gives more.
    fn give_heads(&mut self, answers: &mut Stores<St>) -> Result<(), Memory>
        requires { length answers.old ≤ greatest_batch }
        ensures joined { OnOk result ((pulls : ℕ) → batch_then (map St.meaning answers.old) pulls
            (answers_left self.old)
            ≡ batch_then (map St.meaning answers.new) pulls (answers_left self.new)) }
        ensures few { OnOk result (length answers.new ≤ greatest_batch) }
        ensures none { OnOk result (length answers.new < greatest_batch → GivesNone self.new.limit
            self.new.heads) }
        ensures pulls { pulls_made self.new ≡ pulls_made self.old }
        ensures round { round_of self.new ≡ round_of self.old }
        ensures spent { is_spent self.new ≡ is_spent self.old }
    {
        while answers.len() < GREATEST_BATCH {
            match self.next_head() {
                Some(store) => put_last(answers, store)?,
                None => return Ok(()),
            }
        }
        Ok(())
    }

    // What comes where no store may be given before a pull.
    fn next_step(&self) -> Next
        requires { GivesNone self.now.limit self.now.heads }
        ensures { ComesNext self.now result }
    {
        if is_reached(self.limit) {
            return Next::Ends(Ended::Limit);
        }
        match &self.tail {
            None => Next::Ends(Ended::End),
            Some(_) if self.fuel == 0 => Next::Ends(Ended::Fuel),
            Some(_) => Next::Pulls,
        }
    }

    // Makes a pull. After want of memory nothing is left of the stream.
    fn make_pull(&mut self, alloc: Global) -> Result<(), Memory>
        requires { WantsPull self.old.limit self.old.heads self.old.next self.old.fuel }
        ensures pulled { OnOk result (answers_left self.old ≡ with_pull (answers_left self.new)) }
        ensures pulls { OnOk result (pulls_made self.new ≡ pulls_made self.old + 1) }
        ensures round { round_of self.new ≡ round_of self.old }
        ensures spent { is_spent self.new ≡ is_spent self.old }
    {
        match self.tail.take() {
            Some(id) => match pull(alloc, self.program, id, &mut self.nodes) {
                Ok(pulled) => {
                    let Pulled { heads, tail } = pulled;
                    self.heads = heads;
                    self.tail = tail;
                    self.pulls += 1;
                    self.fuel -= 1;
                    Ok(())
                }
                Err(Memory) => Err(Memory),
            },
            None => unreachable!(),
        }
    }

    // The next answers, where no memory was wanting before.
    fn next_batch(&mut self, alloc: Global) -> Result<Batch<St>, Memory>
        ensures batch { IfOk result (λ batch. Advances (round_of self.old)
            (answers_left self.old) (pulls_made self.old) (map St.meaning batch.answers)
            batch.ended (answers_left self.new) (pulls_made self.new)) }
        ensures gave_all { IfOk result (λ batch. GaveAll (length batch.answers) batch.ended
            (stream_left self.new)) }
        ensures round { round_of self.new ≡ round_of self.old }
        ensures spent { is_spent self.new ≡ is_spent self.old }
    {
        let mut answers = ListOf::new(alloc);
        let mut made = 0;
        loop {
            self.give_heads(&mut answers)?;
            if answers.len() == GREATEST_BATCH {
                return Ok(Batch {
                    answers,
                    ended: None,
                });
            }
            match self.next_step() {
                Next::Ends(ended) => {
                    return Ok(Batch {
                        answers,
                        ended: Some(ended),
                    });
                }
                Next::Pulls => {
                    if made == self.round {
                        return Ok(Batch {
                            answers,
                            ended: None,
                        });
                    }
                    self.make_pull(alloc)?;
                    made += 1;
                }
            }
        }
    }

    /// The next answers: at most 1,024, found by at most a round of pulls. A search that has ended
    /// gives no more answers and ends again as it did. After want of memory nothing is known of
    /// what is left, and memory is wanted again.
    pub fn advance_alone(&mut self, alloc: Global) -> Result<Batch<St>, Memory>
        ensures batch { IfOk result (λ batch. Advances (round_of self.old)
            (answers_left self.old) (pulls_made self.old) (map St.meaning batch.answers)
            batch.ended (answers_left self.new) (pulls_made self.new)) }
        ensures gave_all { IfOk result (λ batch. GaveAll (length batch.answers) batch.ended
            (stream_left self.new)) }
        ensures keeps { IfOk result (λ batch. KeepsSolutions (answers_left self.old)
            (map St.meaning batch.answers) (answers_left self.new)) }
        ensures round { round_of self.new ≡ round_of self.old }
        ensures whole { OnOk result ((is_spent self.new) ≡ false) }
        ensures spent { OnErr result ((is_spent self.new) ≡ true) }
        ensures again { (is_spent self.old) ≡ true → IsErr result }
    {
        if self.spent {
            return Err(Memory);
        }
        self.spent = true;
        let batch = self.next_batch(alloc)?;
        self.spent = false;
        Ok(batch)
    }
}

impl<'a, St: Store> Search<'a, St, LinkedNodes<'a>> {
    ghost use Rattle.std.specs.Prelude.{◌≡◌, ◌≤◌, true, false, [], ◌∷◌, IfOk};
    ghost use Rattle.kan_model.specs.Programs.Tables.{are_closed};
    ghost use Rattle.kan_model.specs.Programs.Scope.{is_small};
    ghost use Rattle.kan_model.specs.Programs.Closed as programs;
    ghost use Rattle.kan_model.specs.Streams.Taking.{take_query};
    ghost use Rattle.kan_search.specs.Searches.{answers_left, pulls_made, round_of, is_spent};
    ghost use Rattle.kan_search.specs.SolutionsLeft.{MissesNone};

    /// The same over the empty table of one thread.
    pub fn open_alone(
        alloc: Global,
        program: &'a Program,
        query: &Query,
        fuel: u64,
        round: u32,
    ) -> Result<Search<'a, St, LinkedNodes<'a>>, Memory>
        requires closed { are_closed (programs.tables program.now) (query.now.goal ∷ []) ≡ true }
        requires small { is_small (programs.meaning program.now) ≡ true }
        requires fuel { 1 ≤ fuel × (fuel ≤ 1000000) }
        requires round { 1 ≤ round × (round ≤ 65536) }
        ensures left { IfOk result (λ search. answers_left search ≡ take_query
            (programs.meaning program.now) fuel (programs.query_of program.now query.now)) }
        ensures pulls { IfOk result (λ search. pulls_made search ≡ 0) }
        ensures round { IfOk result (λ search. round_of search ≡ round) }
        ensures whole { IfOk result (λ search. is_spent search ≡ false) }
        ensures misses_none { IfOk result (λ search. MissesNone (programs.meaning program.now)
            (programs.query_of program.now query.now) fuel (answers_left search)) }
    {
        let nodes = LinkedNodes::new(alloc, program);
        let search = Search::open(alloc, program, nodes, query, fuel, round)?;
        Ok(search)
    }
}
