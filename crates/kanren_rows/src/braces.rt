//! What stands in braces: bytes by their digits, the word of a turn, and pieces that are repeated.

ghost use Rattle.std.specs.Prelude.{◌<◌, IfSome};

use crate::fault::Fault;
use std::alloc::Global;

// A part of a line.
#[derive(Drop)]
enum Part {
    Plain(Vec<u8>),
    Braced(Vec<u8>),
}

// The parts of a line, as they are being read.
#[derive(Drop)]
struct Parts {
    done: Vec<Part>,
    open: Vec<u8>,
    depth: u64,
}

impl Parts {
    // Ends the part that is open, and begins one at this depth.
    fn turn(&mut self, alloc: Global, depth: u64) -> Result<(), Fault> {
        let part = std::mem::replace(&mut self.open, Vec::new(alloc));
        if self.depth == 0 {
            self.done.push(Part::Plain(part))?;
        } else {
            self.done.push(Part::Braced(part))?;
        }
        self.depth = depth;
        Ok(())
    }

    // Takes the next byte. Braces in braces belong to the part.
    fn add(&mut self, alloc: Global, byte: u8) -> Result<(), Fault> {
        match (byte, self.depth) {
            (b'{', 0) => return self.turn(alloc, 1),
            (b'}', 0) => return Err(Fault::Wrong("a brace is closed that was not opened")),
            (b'}', 1) => return self.turn(alloc, 0),
            (b'{', depth) => self.depth = depth.saturating_add(1),
            (b'}', depth) => self.depth = depth.saturating_sub(1),
            _ => {}
        }
        self.open.push(byte)?;
        Ok(())
    }
}

// Takes a line apart.
fn parts_of(alloc: Global, line: &[u8]) -> Result<Vec<Part>, Fault> {
    let mut parts = Parts {
        done: Vec::new(alloc),
        open: Vec::new(alloc),
        depth: 0,
    };
    for byte in line {
        parts.add(alloc, *byte)?;
    }
    if parts.depth != 0 {
        return Err(Fault::Wrong("a brace is not closed"));
    }
    parts.turn(alloc, 0)?;
    Ok(parts.done)
}

// What a hexadecimal digit stands for.
fn digit(byte: u8) -> Option<u8>
    ensures { IfSome result (λ value. value < 16) }
{
    match byte {
        b'0'..=b'9' => Some(byte - b'0'),
        b'A'..=b'F' => Some(byte - b'A' + 10),
        _ => None,
    }
}

// The byte of two hexadecimal digits.
fn byte_of(inner: &[u8]) -> Option<u8> {
    match inner {
        [high, low] => {
            let high = digit(*high)?;
            let low = digit(*low)?;
            Some(high * 16 + low)
        }
        _ => None,
    }
}

// Adds what a part stands for that repeats nothing. `turn` is the number of the repetition around
// it.
fn add_part(
    alloc: Global,
    part: &Part,
    each: &str,
    turn: Option<u32>,
    to: &mut Vec<u8>,
) -> Result<(), Fault> {
    let inner = match part {
        Part::Plain(bytes) => {
            to.extend_from_slice(bytes)?;
            return Ok(());
        }
        Part::Braced(inner) => inner.as_slice(),
    };
    if let Some(byte) = byte_of(inner) {
        to.push(byte)?;
    } else if inner == b"each".as_slice() {
        to.extend_from_slice(each.as_bytes())?;
    } else {
        add_turn(alloc, inner, turn, to)?;
    }
    Ok(())
}

// Adds the number of a repetition.
fn add_turn(alloc: Global, inner: &[u8], turn: Option<u32>, to: &mut Vec<u8>) -> Result<(), Fault> {
    let Some(turn) = turn else {
        return Err(Fault::Wrong("what stands in the braces is unknown"));
    };
    if inner != b"turn".as_slice() {
        return Err(Fault::Wrong("what stands in the inner braces is unknown"));
    }
    let number = format!(in alloc; "{turn}")?;
    to.extend_from_slice(number.as_bytes())?;
    Ok(())
}

// How often braces repeat a piece, and the piece.
fn repeated(inner: &[u8]) -> Option<(u32, &str)> {
    let (count, piece) = std::str::from_utf8(inner).ok()?.split_once(" times ")?;
    Some((count.parse::<u32>().ok()?, piece))
}

// Adds a piece so many times.
fn add_repeated(
    alloc: Global,
    count: u32,
    piece: &str,
    each: &str,
    to: &mut Vec<u8>,
) -> Result<(), Fault> {
    let parts = parts_of(alloc, piece.as_bytes())?;
    for turn in 0..count {
        for part in &parts {
            add_part(alloc, part, each, Some(turn), to)?;
        }
    }
    Ok(())
}

/// What a line stands for, where `{each}` is this word.
pub(crate) fn expand(alloc: Global, line: &str, each: &str) -> Result<Vec<u8>, Fault> {
    let mut bytes = Vec::new(alloc);
    for part in &parts_of(alloc, line.as_bytes())? {
        match part {
            Part::Braced(inner) if let Some((count, piece)) = repeated(inner) => {
                add_repeated(alloc, count, piece, each, &mut bytes)?;
            }
            _ => add_part(alloc, part, each, None, &mut bytes)?,
        }
    }
    Ok(bytes)
}
