//! Data as a table of their parts, in which a pair names its two parts by their places.

ghost use Rattle.std.specs.Prelude.{◌≡◌, ◌<◌, ◌^◌, ◌-◌, [], ◌∷◌, ◌++◌, length, IsTrue, IfOk, OnOk};
ghost use Rattle.std.specs.Prelude.{OnErr};
ghost use Rattle.goal_forms.specs.PartRows.{are_grown};

use kan_terms::Memory;
use std::alloc::Global;

/// What a part of a datum is.
#[derive(Clone, Copy, Debug, PartialEq, Eq)]
pub enum Part {
    /// A symbol, by its number in the table of names.
    Name(u32),
    /// A string, by its number in the table of strings.
    Text(u32),
    Number(i128),
    Truth(bool),
    /// The empty list, or the end of a list.
    Nil,
    /// A pair of the parts at two places before its own.
    Pair(u32, u32),
}

/// A part of a datum and the offset of the datum.
#[derive(Clone, Copy, Debug, PartialEq, Eq)]
pub struct FlatPart {
    pub at: u32,
    pub part: Part,
}

/// The parts of data.
#[derive(Drop)]
pub struct FlatData {
    rows: Vec<FlatPart>,
    ghost grown: { IsTrue (are_grown 0 rows.items) },
}

impl FlatData {
    ghost use Rattle.kan_grammar.specs.Texts.Sited.{site};
    ghost use Rattle.goal_forms.specs.PartRows.{is_grown};
    ghost use Rattle.goal_forms.specs.Parts.{sites, site_at, node_site};

    /// No parts.
    pub fn new(alloc: Global) -> FlatData
        ensures { sites result ≡ [] }
    {
        FlatData {
            rows: Vec::new(alloc),
        }
    }

    /// The part at a place; where there is none, the end of a list.
    pub fn read(&self, place: u32) -> FlatPart
        ensures part { site_at (sites self.now) place ≡ node_site (sites self.now) result }
        ensures offset { result.at ≡ site (site_at (sites self.now) place) }
        ensures before { IsTrue (is_grown place result) }
    {
        match self.rows.get(place as usize) {
            Some(node) => *node,
            None => FlatPart {
                at: 0,
                part: Part::Nil,
            },
        }
    }

    /// Adds a part, and gives its place.
    pub fn push(&mut self, node: FlatPart) -> Result<u32, Memory>
        requires there { IsTrue (is_grown (length (sites self.old)) node) }
        requires room { length (sites self.old) < 2 ^ 32 }
        ensures added { OnOk result
            (sites self.new ≡ sites self.old ++ node_site (sites self.old) node ∷ []) }
        ensures place { IfOk result (λ place. place ≡ length (sites self.old)) }
        ensures unchanged { OnErr result (sites self.new ≡ sites self.old) }
    {
        let place = self.rows.len() as u32;
        self.rows.push(node)?;
        Ok(place)
    }
}
