//! A source that never fails.

ghost use Rattle.std.specs.Prelude.{◌≡◌, ◌<◌, [], Some, IfOk, IsOk, min, length, drop};
ghost use Rattle.kan_base.specs.Reads.{Reads};

use crate::copy::copy_front;
use crate::faults::Failed;
use crate::sources::{Place, Source};
use std::marker::Model;

/// A source where every place holds one text. No call fails.
#[derive(Drop)]
pub struct SteadySource {
    text: Vec<u8>,
    at: usize,
}

impl Model for SteadySource {
    ghost use Rattle.std.specs.Prelude.{◌≤◌, length, drop};
    ghost use Rattle.kan_base.specs.SteadySources.{SteadyState};

    ghost Value = { SteadyState };

    ghost view = { λ source. record {
      text = source.text.items;
      left = drop source.at source.text.items;
    } };

    ghost invariant = { λ source. source.at ≤ length source.text.items };
}

impl SteadySource {
    /// A source of this text. Nothing is left of it until a place is opened.
    pub fn new(text: Vec<u8>) -> SteadySource
        ensures { result ≡ record { text = text.items; left = [] } }
    {
        let at = text.len();
        SteadySource { text, at }
    }
}

impl Source for SteadySource {
    ghost view = { λ source. record {
      holds = λ place. Some source.text;
      left = Some source.left;
      faults = 0;
    } };

    fn open(&mut self, _place: Place<'_>) -> Result<(), Failed>
        ensures never_fails { IsOk result }
        ensures exact { self.new ≡ record self.old { left = self.old.text } }
    {
        self.at = 0;
        Ok(())
    }

    fn read(&mut self, buf: &mut [u8]) -> Result<usize, Failed>
        requires { 0 < length buf.old }
        ensures read { IfOk result (λ n.
            Reads (Some self.old.left) (Some self.new.left) n buf.new) }
        ensures never_fails { IsOk result }
        ensures count { IfOk result (λ n. n ≡ min (length self.old.left) (length buf.old)) }
        ensures exact { IfOk result (λ n.
            self.new ≡ record self.old { left = drop n self.old.left }) }
    {
        let left = &self.text[self.at..];
        let n = left.len().min(buf.len());
        copy_front(left, buf, n);
        self.at += n;
        Ok(n)
    }
}
