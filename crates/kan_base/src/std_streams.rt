//! One read and one write over std's readers and writers.

ghost use Rattle.std.specs.Prelude.{◌<◌, length, IfOk, OnErr};
ghost use Rattle.std.specs.Io.KnownBytes.{Keeps};
ghost use Rattle.kan_base.specs.Reads.{Reads};
ghost use Rattle.kan_base.specs.Writes.{Writes, PutsFront};

use crate::faults::Failed;
use std::io::{Read, Write};

/// Reads the next bytes of a reader into the front of `buf`, and says how many.
pub(crate) fn read_some<R: Read>(reader: &mut R, buf: &mut [u8]) -> Result<usize, Failed>
    requires { 0 < length buf.old }
    ensures read { IfOk result (λ n.
        Reads (R.remaining reader.old) (R.remaining reader.new) n buf.new) }
    ensures unchanged { OnErr result (Keeps (R.remaining reader.old) (R.remaining reader.new)) }
{
    match reader.read(buf) {
        Ok(n) => Ok(n),
        Err(_) => Err(Failed),
    }
}

/// Writes the first bytes of a piece and flushes the writer, and says how many. A write that takes
/// nothing of a piece that isn't empty has failed.
pub(crate) fn write_some<W: Write>(writer: &mut W, piece: &[u8]) -> Result<usize, Failed>
    ensures written { IfOk result (λ n.
        Writes (W.contents writer.old) (W.contents writer.new) n piece.now) }
    // Where the flush failed, the writer has taken a front of the piece.
    ensures front { OnErr result
        (PutsFront (W.contents writer.old) (W.contents writer.new) piece.now) }
{
    let Ok(n) = writer.write(piece) else {
        return Err(Failed);
    };
    if writer.flush().is_err() {
        return Err(Failed);
    }
    if n > 0 || piece.is_empty() {
        Ok(n)
    } else {
        Err(Failed)
    }
}
