//! Cases: what the top call is given, and what must come of it.

use kan_base::Status;
use std::alloc::Global;

// How many bytes a read gives at most where nothing is said.
const PIECE: u32 = 65_536;

// How many bytes a sink has room for where nothing is said.
const ROOM: u32 = 2_097_152;

/// How much a source or a sink moves at once, and which of its calls fail.
#[derive(Drop)]
pub(crate) struct Plan {
    /// How many bytes at once, at most.
    pub piece: u32,
    /// The numbers of the calls that fail, from 0.
    pub fails: Vec<u32>,
}

/// A case.
#[derive(Drop)]
pub(crate) struct Case {
    /// The words of the command.
    pub words: Vec<String>,
    /// What standard input holds.
    pub input: Vec<u8>,
    /// The files of the source, by their names.
    pub files: Vec<(String, Vec<u8>)>,
    /// How the source behaves.
    pub source: Plan,
    /// How many bytes the sink has room for.
    pub room: u32,
    /// How the sink behaves.
    pub sink: Plan,
    /// What must be put.
    pub output: Vec<u8>,
    /// What the call must answer.
    pub status: Status,
}

impl Case {
    /// A case of which nothing is said.
    pub(crate) fn new(alloc: Global) -> Case {
        Case {
            words: Vec::new(alloc),
            input: Vec::new(alloc),
            files: Vec::new(alloc),
            source: Plan {
                piece: PIECE,
                fails: Vec::new(alloc),
            },
            room: ROOM,
            sink: Plan {
                piece: ROOM,
                fails: Vec::new(alloc),
            },
            output: Vec::new(alloc),
            status: Status::Done,
        }
    }
}
