//! The top call: from a source of bytes to a sink.

ghost use Rattle.std.specs.Prelude.{◌≡◌, ◌≤◌, length, List, ℕ, true, false, IfOk};
ghost use Rattle.kan_base.specs.Spots.{spot};
ghost use Rattle.command_line.specs.WordsRead.{Reads, line_asked};
ghost use Rattle.command_line.specs.Lines.{IsInRange, texts};
ghost use Rattle.rel_library.specs.Loads.{greatest_load, load};
ghost use Rattle.kanren_run.specs.Answers.{IsRefusedFor};
ghost use Rattle.kanren_run.specs.Commands as commands;
ghost use Rattle.kanren_run.specs.Headline.{TextsMean};
ghost use Rattle.kanren_run.specs.Origins as origins;
ghost use Rattle.kanren_run.specs.Origins.{ends_of, origin_of, spot_of};
ghost use Rattle.kanren_run.specs.Outcomes.{IsFaithful, IsFaithfulAt, WritesReply, is_refusal};
ghost use Rattle.kanren_run.specs.Replies.{HasRuns};
ghost use Rattle.kanren_run.specs.Settings as settings;
ghost use Rattle.kanren_run.specs.Settings.{InRange};
ghost use Rattle.kanren_run.specs.Writing.{CanRun};

use crate::refusal::{Fault, fault_line};
use crate::settings::Settings;
use crate::text::{NotRun, compile_text};
use crate::writing::{Stop, write_runs};
use command_line::{Name, Options, WordsFault, read_words};
use goal_syntax::Compiled;
use kan_base::{Place, Sink, Source, Status, TextStop, put_all, take_text};
use kan_model::Store;
use kan_store::SolvedStore;
use kan_subst::TreeBindings;
use kan_terms::{Memory, Names};
use rel_library::make_load;
use std::alloc::Global;

/// Gets the text that the words ask for, runs it, and writes its output.
///
/// The words are those after the program's name: options and at most one name of a file. The
/// answers of a run come in the order of its stream, each a line, and behind them the run's summary
/// line; they are written as they are found. A text that is refused gives one line that says so.
pub fn kanren_alone<S: Source, K: Sink>(
    alloc: Global,
    words: &[&str],
    source: &mut S,
    sink: &mut K,
) -> Status
    // Its outcome, when it is Usage, how many calls of its ends failed, and that it is complete.
    ensures faithful { IsFaithful (texts words.now) (ends_of (S.view source.old)
        (S.view source.new) (K.view sink.old) (K.view sink.new)) result }
    // What the answers mean that are written for an accepted text.
    ensures means { TextsMean (commands.line_alone (texts words.now)) }
{
    kanren_over::<SolvedStore<TreeBindings>, S, K>(alloc, words, source, sink)
}

/// What `kanren_alone` does, over stores of any kind. All give the same bytes; they differ in time
/// and memory.
pub fn kanren_over<St: Store, S: Source, K: Sink>(
    alloc: Global,
    words: &[&str],
    source: &mut S,
    sink: &mut K,
) -> Status
    // Its outcome, when it is Usage, how many calls of its ends failed, and that it is complete.
    ensures faithful { IsFaithful (texts words.now) (ends_of (S.view source.old)
        (S.view source.new) (K.view sink.old) (K.view sink.new)) result }
    // What the answers mean that are written for an accepted text.
    ensures means { TextsMean (commands.line_alone (texts words.now)) }
{
    match read_alone(alloc, words) {
        Ok(options) => answer_options::<St, S, K>(alloc, &options, source, sink),
        Err(WordsFault::Usage) => Status::Usage,
        Err(WordsFault::Memory) => Status::Memory,
    }
}

// The options that words ask for, where they are a line of the command that asks for no workers.
fn read_alone(alloc: Global, words: &[&str]) -> Result<Options, WordsFault>
    ensures reads { Reads (commands.line_alone (texts words.now)) result }
    ensures range { IfOk result (λ options. IsInRange (line_asked options)) }
{
    let options = read_words(alloc, words)?;
    if options.workers == 0 {
        Ok(options)
    } else {
        Err(WordsFault::Usage)
    }
}

// The place of a file's name, where none is standard input.
fn place_of(file: &Option<Name>) -> Place<'_>
    ensures { spot result ≡ spot_of file.now }
{
    match file {
        Some(name) => Place::File(name.text()),
        None => Place::Input,
    }
}

// What options ask for of the answering of their text.
fn settings_of(options: &Options) -> Settings
    ensures { result ≡ settings.settings_of (line_asked options.now) }
{
    Settings {
        library: options.library,
        dialect: options.dialect,
        fuel: options.fuel,
        round: options.round,
    }
}

// Answers the text that options ask for.
fn answer_options<St: Store, S: Source, K: Sink>(
    alloc: Global,
    options: &Options,
    source: &mut S,
    sink: &mut K,
) -> Status
    requires { IsInRange (line_asked options.now) }
    ensures { IsFaithfulAt (origin_of (line_asked options.now))
        (settings.settings_of (line_asked options.now)) (ends_of (S.view source.old)
        (S.view source.new) (K.view sink.old) (K.view sink.new)) result }
{
    let settings = settings_of(options);
    match options.load {
        Some(number) => answer_load::<St, K>(alloc, number, settings, sink),
        None => answer_place::<St, S, K>(alloc, place_of(&options.file), settings, source, sink),
    }
}

// Answers the text at a place of the source.
fn answer_place<St: Store, S: Source, K: Sink>(
    alloc: Global,
    place: Place<'_>,
    settings: Settings,
    source: &mut S,
    sink: &mut K,
) -> Status
    requires { InRange settings }
    ensures { IsFaithfulAt (origins.Origin.opened (spot place.entry)) settings
        (ends_of (S.view source.old) (S.view source.new) (K.view sink.old) (K.view sink.new))
        result }
{
    match take_text(alloc, source, place) {
        Ok(text) => answer_text::<St, K>(alloc, settings, &text, sink),
        Err(TextStop::Fault) => Status::ReadFault,
        Err(TextStop::TooLong) => Status::TooLong,
        Err(TextStop::Memory) => Status::Memory,
    }
}

// Answers a generated load.
fn answer_load<St: Store, K: Sink>(
    alloc: Global,
    number: u32,
    settings: Settings,
    sink: &mut K,
) -> Status
    requires range { InRange settings }
    requires number { number ≤ greatest_load }
    requires library { settings.library ≡ true }
    ensures reply { WritesReply settings (load number) (K.view sink.old) (K.view sink.new) result }
    ensures accepted { is_refusal result ≡ false }
{
    match make_load(alloc, number) {
        Ok(text) => answer_text::<St, K>(alloc, settings, &text, sink),
        Err(Memory) => Status::Memory,
    }
}

// Writes what a text that was got whole is answered with.
fn answer_text<St: Store, K: Sink>(
    alloc: Global,
    settings: Settings,
    text: &[u8],
    sink: &mut K,
) -> Status
    requires short { length text.now ≤ 1048576 }
    requires range { InRange settings }
    ensures { WritesReply settings text.now (K.view sink.old) (K.view sink.new) result }
{
    let mut names = Names::new(alloc);
    match compile_text(alloc, settings, text, &mut names) {
        Ok(compiled) => answer_runs::<St, K>(alloc, settings, &compiled, &names, sink),
        Err(NotRun::Fault(fault)) => refuse(alloc, fault, sink),
        Err(NotRun::Memory) => Status::Memory,
    }
}

// Writes the runs of a text.
fn answer_runs<St: Store, K: Sink>(
    alloc: Global,
    settings: Settings,
    compiled: &Compiled,
    names: &Names,
    sink: &mut K,
) -> Status
    requires range { InRange settings }
    requires can_run { CanRun names.now compiled.now.program compiled.now.queries }
    ensures { (text : List ℕ)
        → HasRuns settings text names.now compiled.now.program compiled.now.queries
        → WritesReply settings text (K.view sink.old) (K.view sink.new) result }
{
    let Compiled { program, queries } = compiled;
    reify::texts_differ(names);
    match write_runs::<K, St>(alloc, program, queries.items(), settings, names, sink) {
        Ok(false) => Status::Done,
        Ok(true) => Status::Fuel,
        Err(Stop::Fault) => Status::WriteFault,
        Err(Stop::Memory) => Status::Memory,
    }
}

// Writes the line of a fault.
fn refuse<K: Sink>(alloc: Global, fault: Fault, sink: &mut K) -> Status
    ensures { (s : settings.Answering) (text : List ℕ) → IsRefusedFor s text fault.at fault.refusal
        → WritesReply s text (K.view sink.old) (K.view sink.new) result }
{
    let Ok(line) = fault_line(alloc, fault) else {
        return Status::Memory;
    };
    match put_all(sink, line.as_bytes()) {
        Ok(()) => Status::Text(fault.at, fault.refusal.number()),
        Err(_) => Status::WriteFault,
    }
}
