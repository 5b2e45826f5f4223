//! Sources of bytes, and the places that they read.

ghost use Rattle.std.specs.Prelude.{◌≡◌, ◌<◌, length, IfOk, OnOk};
ghost use Rattle.std.specs.Io.KnownBytes.{Keeps};
ghost use Rattle.kan_base.specs.Spots.{spot};
ghost use Rattle.kan_base.specs.Views.{SourceView, HoldsTheSame};
ghost use Rattle.kan_base.specs.Faults.{faults_after};
ghost use Rattle.kan_base.specs.Reads.{Reads};

use crate::faults::Failed;

/// A place that bytes are read from.
#[derive(Clone, Copy)]
pub enum Place<'a> {
    /// Standard input.
    Input,
    /// The file of this name.
    File(&'a str),
}

/// Where bytes come from.
pub trait Source {
    // What each place holds, what is left of the opened one, and how many calls have failed.
    ghost view: { Self → SourceView };

    /// Opens a place, from its beginning. After `Failed` nothing is told of what is left.
    fn open(&mut self, place: Place<'_>) -> Result<(), Failed>
        ensures opened { OnOk result
            (Keeps ((view self.old).holds (spot place.entry)) (view self.new).left) }
        ensures same { HoldsTheSame (view self.old) (view self.new) }
        ensures faults { (view self.new).faults ≡ faults_after result (view self.old).faults };

    /// Reads the next bytes of the opened place into the front of `buf`, and says how many.
    /// After `Failed` nothing is told of what is left.
    fn read(&mut self, buf: &mut [u8]) -> Result<usize, Failed>
        requires { 0 < length buf.old }
        ensures read { IfOk result (λ n.
            Reads (view self.old).left (view self.new).left n buf.new) }
        ensures same { HoldsTheSame (view self.old) (view self.new) }
        ensures faults { (view self.new).faults ≡ faults_after result (view self.old).faults };
}
