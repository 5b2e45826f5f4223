//! A source whose places are kept in memory.

ghost use Rattle.std.specs.Prelude.{◌≡◌, ◌<◌, ◌≤◌, [], None, Some, MatchOption, length};
ghost use Rattle.std.specs.Prelude.{IfOk, OnOk, OnErr, is_err};
ghost use Rattle.kan_base.specs.Spots.{spot};
ghost use Rattle.kan_base.specs.Faults.{faults_after};
ghost use Rattle.kan_base.specs.Reads.{Reads};
ghost use Rattle.kan_base.specs.Plans.{is_due, new_plan};
ghost use Rattle.kan_base.specs.InMemory.{file_of, content_of, open_fails, read_count};
ghost use Rattle.kan_base.specs.InMemory.{after_open, after_read, after_failed_call};
ghost use Rattle.kan_base.specs.Files.{all_named, FindsAt};
ghost use Rattle.kan_base.specs.OpenBytes.{opened_bytes};

use crate::copy::copy_front;
use crate::faults::Failed;
use crate::plan::Plan;
use crate::sources::{Place, Source};
use std::marker::Model;

/// What a source in memory has open.
#[derive(Clone, Copy)]
enum Opened {
    Nothing,
    Input,
    File(usize),
}

/// A source whose places are kept in memory. The calls that it is told fail.
#[derive(Drop)]
pub struct MemorySource {
    input: Vec<u8>,
    files: Vec<(String, Vec<u8>)>,
    piece: u32,
    opened: Opened,
    at: usize,
    plan: Plan,
}

impl Model for MemorySource {
    ghost use Rattle.std.specs.Prelude.{◌≤◌, length, drop};
    ghost use Rattle.kan_base.specs.InMemory.{SourceState};
    ghost use Rattle.kan_base.specs.Files.{all_named};
    ghost use Rattle.kan_base.specs.OpenBytes.{opened_bytes};

    ghost Value = { SourceState };

    ghost view = { λ source. record {
      input = source.input.items;
      files = all_named source.files.items;
      left = drop source.at (opened_bytes source.opened source.input.items source.files.items);
      piece = source.piece;
      plan = source.plan;
    } };

    ghost invariant = { λ source. (1 ≤ source.piece)
        × (source.at ≤ length (opened_bytes source.opened source.input.items source.files.items)) };
}

impl MemorySource {
    /// A source with this input and these files, of which the first of a name counts. A read gives
    /// at most `piece` bytes, and the calls whose numbers stand in `fails` fail, counted from 0
    /// over `open` and `read` together.
    pub fn new(
        input: Vec<u8>,
        files: Vec<(String, Vec<u8>)>,
        piece: u32,
        fails: Vec<u32>,
    ) -> MemorySource
        requires { 1 ≤ piece }
        ensures { result ≡ record {
          input = input.items;
          files = all_named files.items;
          left = [];
          piece = piece;
          plan = new_plan fails.items;
        } }
    {
        MemorySource {
            input,
            files,
            piece,
            opened: Opened::Nothing,
            at: 0,
            plan: Plan::new(fails),
        }
    }
}

impl Source for MemorySource {
    ghost view = { λ source. record {
      holds = content_of source;
      left = Some source.left;
      faults = source.plan.faults;
    } };

    fn open(&mut self, place: Place<'_>) -> Result<(), Failed>
        ensures faults { self.new.plan.faults ≡ faults_after result self.old.plan.faults }
        // Exactly where it is planned to, and where the place isn't there.
        ensures fails { is_err result ≡ open_fails self.old (spot place.entry) }
        ensures ok { OnOk result (self.new ≡ after_open self.old (spot place.entry)) }
        ensures err { OnErr result (self.new ≡ after_failed_call self.old) }
    {
        let found = match place {
            Place::Input => Some(Opened::Input),
            Place::File(name) => find_file(self.files.as_slice(), name).map(Opened::File),
        };
        match found {
            Some(opened) if !self.plan.is_due() => {
                self.opened = opened;
                self.at = 0;
                self.plan.pass();
                Ok(())
            }
            _ => {
                self.plan.fail();
                Err(Failed)
            }
        }
    }

    fn read(&mut self, buf: &mut [u8]) -> Result<usize, Failed>
        requires { 0 < length buf.old }
        ensures read { IfOk result (λ n.
            Reads (Some self.old.left) (Some self.new.left) n buf.new) }
        ensures faults { self.new.plan.faults ≡ faults_after result self.old.plan.faults }
        // Exactly where it is planned to.
        ensures fails { is_err result ≡ is_due self.old.plan }
        ensures count { IfOk result (λ n. n ≡ read_count self.old buf.old) }
        ensures ok { IfOk result (λ n. self.new ≡ after_read self.old n) }
        ensures err { OnErr result (self.new ≡ after_failed_call self.old) }
    {
        if self.plan.is_due() {
            self.plan.fail();
            return Err(Failed);
        }
        let text = opened_text(self.opened, self.input.as_slice(), self.files.as_slice());
        let left = &text[self.at..];
        let n = left.len().min(buf.len()).min(self.piece as usize);
        copy_front(left, buf, n);
        self.at += n;
        self.plan.pass();
        Ok(n)
    }
}

/// The text that is open, from its beginning.
fn opened_text<'a>(opened: Opened, input: &'a [u8], files: &'a [(String, Vec<u8>)]) -> &'a [u8]
    ensures { result.now ≡ opened_bytes opened input.now files.now }
{
    match opened {
        Opened::Nothing => &[],
        Opened::Input => input,
        Opened::File(at) => match files.get(at) {
            Some(file) => file.1.as_slice(),
            None => &[],
        },
    }
}

/// The place of the first file of a name.
fn find_file(files: &[(String, Vec<u8>)], name: &str) -> Option<usize>
    ensures { MatchOption result
        (file_of name.now (all_named files.now) ≡ None)
        (λ at. FindsAt name.now files.now at) }
{
    for at in 0..files.len() {
        if files[at].0.as_str() == name {
            return Some(at);
        }
    }
    None
}
