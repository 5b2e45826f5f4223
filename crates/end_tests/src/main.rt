//! Copies standard input and files to standard output, through the ends over std.
#![tactic(auto)]

#[cfg(test)]
mod files;
#[cfg(test)]
mod refusals;

use kan_base::{Place, StdSink, StdSource, TextStop, put_all, take_text};
use std::process::ExitCode;

// Copies a place, and says what became of it.
fn copy_place(
    rt: &HostRuntime,
    source: &mut StdSource<HostRuntime>,
    place: Place<'_>,
    sink: &mut StdSink<HostRuntime>,
) -> &'static str {
    let text = match take_text(rt.alloc(), source, place) {
        Ok(text) => text,
        Err(TextStop::Fault) => return "not read\n",
        Err(TextStop::TooLong) => return "too long\n",
        Err(TextStop::Memory) => return "out of memory\n",
    };
    match put_all(sink, &text) {
        Ok(()) => "copied\n",
        Err(_) => "not written\n",
    }
}

fn main(rt: HostRuntime) -> ExitCode {
    let mut source = StdSource::new(rt);
    let mut sink = StdSink::new(rt);
    let places = [
        Place::File("two_lines.txt"),
        Place::File("absent.txt"),
        Place::Input,
        Place::File("empty.txt"),
    ];
    for place in places {
        let outcome = copy_place(&rt, &mut source, place, &mut sink);
        if put_all(&mut sink, outcome.as_bytes()).is_err() {
            return ExitCode::from(1);
        }
    }
    ExitCode::from(0)
}
