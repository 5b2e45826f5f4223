//! The lines of answers and of summaries.

ghost use Rattle.std.specs.Prelude.{◌≡◌, ◌++◌, IfOk, OnOk, string_bytes};
ghost use Rattle.kan_model.specs.Answers.Output as output;
ghost use Rattle.kan_search.specs.Batches.{ending_of};
ghost use Rattle.kan_model.specs.Answers.Answer.{HasNames};

use kan_model::Store;
use kan_search::Ended;
use kan_terms::{Memory, Names};
use std::alloc::Global;

/// Adds the line of a store's answer.
pub(crate) fn print_answer<St: Store>(
    alloc: Global,
    store: &St,
    names: &Names,
    lines: &mut Vec<u8>,
) -> Result<(), Memory>
    requires { HasNames names.now (St.meaning store.now) }
    ensures { OnOk result (lines.new.items ≡ lines.old.items
        ++ output.answer_line names.now (St.meaning store.now)) }
{
    let answer = reify::answer_of(alloc, store, names)?;
    let text = reify::print_answer(alloc, &answer, names)?;
    lines.extend_from_slice(&text)?;
    lines.push(b'\n')?;
    Ok(())
}

// The word for an end.
fn ending(ended: Ended) -> &'static str
    ensures { result.now ≡ output.ending_text (ending_of ended) }
{
    match ended {
        Ended::End => "end",
        Ended::Limit => "limit",
        Ended::Fuel => "fuel",
    }
}

// The summary line of a run.
fn summary(alloc: Global, answers: u64, pulls: u64, ended: Ended) -> Result<String, Memory>
    ensures { IfOk result (λ line. string_bytes line
        ≡ output.summary_line answers pulls (ending_of ended)) }
{
    let mut line = String::new(alloc);
    let ending = ending(ended);
    writeln!(line, "; {answers} answers, {pulls} pulls, {ending}")?;
    Ok(line)
}

/// Adds the summary line of a run.
pub(crate) fn print_summary(
    alloc: Global,
    answers: u64,
    pulls: u64,
    ended: Ended,
    lines: &mut Vec<u8>,
) -> Result<(), Memory>
    ensures { OnOk result (lines.new.items ≡ lines.old.items
        ++ output.summary_line answers pulls (ending_of ended)) }
{
    let line = summary(alloc, answers, pulls, ended)?;
    lines.extend_from_slice(line.as_bytes())?;
    Ok(())
}
