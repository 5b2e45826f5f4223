//! Open lists, and prefixes without their datum.

ghost use Rattle.std.specs.Prelude.{◌<◌, length};

use crate::data::{Data, Datum, Prefix};
use crate::token::Shape;

/// An unclosed list after its elements.
#[derive(Drop)]
pub(crate) struct ListFrame {
    pub(crate) at: u32,
    pub(crate) shape: Shape,
    pub(crate) items: Data,
}

/// A list after its dot, which stands behind an element.
#[derive(Drop)]
pub(crate) struct DottedFrame {
    pub(crate) at: u32,
    pub(crate) shape: Shape,
    pub(crate) items: Data,
    pub(crate) point: u32,
    ghost has_first: { 0 < length items },
}

/// A list with the datum after its dot, where only its close may come.
#[derive(Drop)]
pub(crate) struct Ended {
    pub(crate) list: DottedFrame,
    pub(crate) last: Datum,
}

/// What is unclosed around the next datum.
#[derive(Drop)]
pub(crate) enum Frame {
    List(ListFrame),
    Dotted(DottedFrame),
    /// A prefix without its datum: its offset, and which it is.
    Prefix(u32, Prefix),
}
