//! The source over std's input and files.

ghost use Rattle.std.specs.Prelude.{◌≡◌, ◌<◌, None, IfOk, OnOk, length};
ghost use Rattle.kan_base.specs.Faults.{faults_after};
ghost use Rattle.kan_base.specs.Spots.{spot};
ghost use Rattle.kan_base.specs.Reads.{Reads};
ghost use Rattle.kan_base.specs.StdSources.{OpenKind, kind_of, left_of};

use crate::faults::{Failed, one_more};
use crate::sources::{Place, Source};
use crate::std_streams::read_some;
use std::fs;
use std::io::{Input, Read};
use std::marker::Model;
use std::rt::Files;

/// What a source over std has open: a reader of standard input, or one of a file.
#[derive(Drop)]
enum OpenStream<I, F> {
    Nothing,
    Input(I),
    File(F),
}

impl<I: Read, F: Read> OpenStream<I, F> {
    /// Reads the next bytes into the front of `buf`, and says how many.
    fn read(&mut self, buf: &mut [u8]) -> Result<usize, Failed>
        requires { 0 < length buf.old }
        ensures { IfOk result (λ n. Reads (left_of I.remaining F.remaining self.old)
            (left_of I.remaining F.remaining self.new) n buf.new) }
    {
        match self {
            OpenStream::Nothing => Ok(0),
            OpenStream::Input(reader) => read_some(reader, buf),
            OpenStream::File(file) => read_some(file, buf),
        }
    }
}

/// Standard input and files, by the runtime. What is left of the opened place is told where the
/// runtime's readers tell it; those of the host don't.
#[derive(Drop)]
pub struct StdSource<R: Files + Input + Drop> {
    rt: R,
    opened: OpenStream<R::Reader, R::File>,
    faults: u64,
}

impl<R: Files + Input + Drop> Model for StdSource<R> {
    ghost use Rattle.kan_base.specs.StdSources.{StdSourceState, open_kind, left_of};

    ghost Value = { StdSourceState };

    ghost view = { λ source. record {
      kind = open_kind source.opened;
      left = left_of R.Reader.remaining R.File.remaining source.opened;
      faults = source.faults;
    } };
}

impl<R: Files + Input + Drop> StdSource<R> {
    /// A source that has nothing open.
    pub fn new(rt: R) -> StdSource<R>
        ensures { result ≡ record { kind = OpenKind.nothing; left = None; faults = 0 } }
    {
        StdSource {
            rt,
            opened: OpenStream::Nothing,
            faults: 0,
        }
    }
}

impl<R: Files + Input + Drop> Source for StdSource<R> {
    ghost view = { λ source. record {
      holds = λ place. None;
      left = source.left;
      faults = source.faults;
    } };

    fn open(&mut self, place: Place<'_>) -> Result<(), Failed>
        ensures kind { OnOk result (self.new.kind ≡ kind_of (spot place.entry)) }
        ensures faults { self.new.faults ≡ faults_after result self.old.faults }
    {
        match place {
            Place::Input => {
                self.opened = OpenStream::Input(self.rt.reader());
                Ok(())
            }
            Place::File(name) => match fs::open(&self.rt, name) {
                Ok(file) => {
                    self.opened = OpenStream::File(file);
                    Ok(())
                }
                Err(_) => {
                    self.faults = one_more(self.faults);
                    Err(Failed)
                }
            },
        }
    }

    fn read(&mut self, buf: &mut [u8]) -> Result<usize, Failed>
        requires { 0 < length buf.old }
        ensures read { IfOk result (λ n. Reads self.old.left self.new.left n buf.new) }
        ensures faults { self.new.faults ≡ faults_after result self.old.faults }
    {
        let result = self.opened.read(buf);
        if result.is_err() {
            self.faults = one_more(self.faults);
        }
        result
    }
}
