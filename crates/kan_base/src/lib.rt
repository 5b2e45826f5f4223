//! The ends of the program: where bytes come from and where they go, and what becomes of a run.
#![tactic(auto)]

mod copy;
mod count_sink;
mod faults;
mod memory_sink;
mod memory_source;
mod plan;
mod sinks;
mod sources;
mod status;
mod std_sink;
mod std_source;
mod std_streams;
mod steady_source;
mod text;
mod words;

pub use count_sink::CountSink;
pub use faults::Failed;
pub use memory_sink::MemorySink;
pub use memory_source::MemorySource;
pub use sinks::{Sink, put_all};
pub use sources::{Place, Source};
pub use status::Status;
pub use std_sink::StdSink;
pub use std_source::StdSource;
pub use steady_source::SteadySource;
pub use text::{GREATEST_TEXT, TextStop, take_text};
pub use words::lent_words;
