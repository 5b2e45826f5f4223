//! Sinks for bytes.

ghost use Rattle.std.specs.Prelude.{◌≡◌, IfOk, OnOk, OnErr};
ghost use Rattle.std.specs.Io.KnownBytes.{Appends};
ghost use Rattle.kan_base.specs.Views.{SinkView};
ghost use Rattle.kan_base.specs.Faults.{faults_after};
ghost use Rattle.kan_base.specs.Writes.{Writes, PutsFront};

use crate::faults::Failed;

/// Where bytes go.
pub trait Sink {
    // What was put, and how many calls have failed.
    ghost view: { Self → SinkView };

    /// Puts the first bytes of a piece, and says how many.
    fn write(&mut self, piece: &[u8]) -> Result<usize, Failed>
        ensures written { IfOk result (λ n.
            Writes (view self.old).put (view self.new).put n piece.now) }
        ensures unchanged { OnErr result ((view self.new).put ≡ (view self.old).put) }
        ensures faults { (view self.new).faults ≡ faults_after result (view self.old).faults };
}

/// Puts a whole piece, by as many writes as the sink wants. The first write that fails is the last.
#[tactic(auto, using(crate::proofs::WriteLemmas::front_put))]
pub fn put_all<K: Sink>(sink: &mut K, piece: &[u8]) -> Result<(), Failed>
    ensures whole { OnOk result (Appends (K.view sink.old).put (K.view sink.new).put piece.now) }
    ensures front { OnErr result (PutsFront (K.view sink.old).put (K.view sink.new).put piece.now) }
    ensures faults { (K.view sink.new).faults ≡ faults_after result (K.view sink.old).faults }
{
    let mut done = 0;
    while done < piece.len() {
        match sink.write(&piece[done..]) {
            Ok(n) => done += n,
            Err(failed) => return Err(failed),
        }
    }
    Ok(())
}
