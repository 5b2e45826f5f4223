//! What is unclosed at a place in a text: the stacks of lists, and of prefixes without their datum.

ghost use Rattle.std.specs.Prelude.{◌≡◌, ◌<◌, ◌≤◌, [], ◌∷◌, ◌++◌, map, None, Some, true};
ghost use Rattle.std.specs.Prelude.{if◌then◌else◌, IfErr, OnOk};
ghost use Rattle.std.specs.List.{fold};
ghost use Rattle.kan_refusals.specs.declared.refusals.Refusal.{Refusal};
ghost use Rattle.kan_grammar.specs.Data.Words.{Atom, Token, opening, closing, prefix, dot, atom};
ghost use Rattle.kan_grammar.specs.Data.Words.{out_of_range, reserved};
ghost use Rattle.kan_grammar.specs.Data.Written.{is_allowed_atom, single};
ghost use Rattle.kan_grammar.specs.Data.Enclosing.{top, in_list, awaiting, put};
ghost use Rattle.kan_grammar.specs.Data.Faults.{begins, is_shape, fault, answer_at_end};
ghost use Rattle.sexpr.specs.Meaning.{shape_of, prefix_of};
ghost use Rattle.sexpr.specs.WrittenForms.{list_of, written_form, as_kept};
ghost use Rattle.kan_terms.specs.Table.{Table};
ghost use Rattle.sexpr.specs.Reads.{Answers, memory_wanted};
ghost use Rattle.sexpr.specs.Frames.{HasDepth, Refuses, RefusesToken, Takes, depth_inside, inside};
ghost use Rattle.sexpr.specs.Frames.{enclosing_of, place};

use crate::data::{Data, Datum, DatumKind, Prefix, ReadError};
use crate::frame::{DottedFrame, Ended, Frame, ListFrame};
use crate::token::Shape;
use kan_refusals::Refusal;
use sqlite_items::Boxed;
use std::alloc::Global;

/// The greatest depth at which a datum may begin.
const DEEPEST: usize = 2048;

/// What is unclosed: the data at the top, the frames from the outermost to the innermost, and the
/// list in them whose last datum is there.
#[derive(Drop)]
pub(crate) struct Enclosing {
    top: Data,
    frames: Vec<Frame>,
    ended: Option<Ended>,
    /// How deep a datum inside all frames stands.
    depth: usize,
    pub(crate) alloc: Global,
}

impl Enclosing {
    /// Nothing is unclosed.
    pub(crate) fn new(alloc: Global) -> Enclosing
        ensures around { (names : Table) → enclosing_of names result ≡ awaiting (top []) }
        ensures depth { HasDepth result }
    {
        Enclosing {
            top: Data::new(alloc),
            frames: Vec::new(alloc),
            ended: None,
            depth: 0,
            alloc,
        }
    }

    /// Refuses a token that begins a datum where none may come, or that stands too deep.
    fn may_begin(&self, at: u32) -> Result<(), ReadError>
        requires { HasDepth self.now }
        ensures place { OnOk result (self.now.ended ≡ None) }
        ensures depth { OnOk result (self.now.depth ≤ 2048) }
        ensures refused { IfErr result (λ e.
            (t : Token) → begins t ≡ true → RefusesToken e self.now at t) }
    {
        if let Some(ended) = &self.ended {
            return Err(ReadError::Fault(ended.list.point, Refusal::BadDot));
        }
        if self.depth > DEEPEST {
            return Err(ReadError::Fault(at, Refusal::TooDeep));
        }
        Ok(())
    }

    /// Opens a list.
    pub(crate) fn begin_list(&mut self, at: u32, shape: Shape) -> Result<(), ReadError>
        requires { HasDepth self.old }
        ensures taken { OnOk result
            ((names : Table) → Takes names self.old self.new at (opening (shape_of shape))) }
        ensures refused { IfErr result
            (λ e. RefusesToken e self.old at (opening (shape_of shape))) }
        ensures depth { OnOk result (HasDepth self.new) }
    {
        self.may_begin(at)?;
        let items = Data::new(self.alloc);
        self.frames
            .push(Frame::List(ListFrame { at, shape, items }))?;
        self.depth += 1;
        Ok(())
    }

    /// Takes a prefix, whose datum is to follow.
    pub(crate) fn begin_prefixed(&mut self, at: u32, kind: Prefix) -> Result<(), ReadError>
        requires { HasDepth self.old }
        ensures taken { OnOk result
            ((names : Table) → Takes names self.old self.new at (prefix (prefix_of kind))) }
        ensures refused { IfErr result (λ e. RefusesToken e self.old at (prefix (prefix_of kind))) }
        ensures depth { OnOk result (HasDepth self.new) }
    {
        self.may_begin(at)?;
        self.frames.push(Frame::Prefix(at, kind))?;
        self.depth += 2;
        Ok(())
    }

    /// Takes a datum of one token.
    pub(crate) fn take_single(&mut self, at: u32, kind: DatumKind) -> Result<(), ReadError>
        requires { HasDepth self.old }
        ensures taken { OnOk result ((names : Table) (a : Atom) → is_allowed_atom a ≡ true
            → written_form names (record { at = at; kind = kind }) ≡ single at a
            → Takes names self.old self.new at (atom a)) }
        ensures refused { IfErr result (λ e. (a : Atom) → RefusesToken e self.old at (atom a)) }
        ensures depth { OnOk result (HasDepth self.new) }
    {
        self.may_begin(at)?;
        self.put(Datum { at, kind })
    }

    /// Refuses a number out of range, where a datum may begin at all.
    pub(crate) fn out_of_range(&self, at: u32) -> ReadError
        requires { HasDepth self.now }
        ensures { RefusesToken result self.now at (atom out_of_range) }
    {
        match self.may_begin(at) {
            Ok(()) => ReadError::Fault(at, Refusal::NumberRange),
            Err(error) => error,
        }
    }

    /// Refuses a reserved name, where a datum may begin at all.
    pub(crate) fn reserved(&self, at: u32) -> ReadError
        requires { HasDepth self.now }
        ensures { RefusesToken result self.now at (atom reserved) }
    {
        match self.may_begin(at) {
            Ok(()) => ReadError::Fault(at, Refusal::ReservedName),
            Err(error) => error,
        }
    }

    /// Takes the dot of a list.
    pub(crate) fn take_dot(&mut self, at: u32) -> Result<(), ReadError>
        requires { HasDepth self.old }
        ensures taken { OnOk result ((names : Table) → Takes names self.old self.new at dot) }
        ensures refused { IfErr result (λ e. RefusesToken e self.old at dot) }
        ensures depth { OnOk result (HasDepth self.new) }
    {
        let misplaced = Err(ReadError::Fault(at, Refusal::BadDot));
        if self.ended.is_some() {
            return misplaced;
        }
        let Some(Frame::List(list)) = self.frames.pop() else {
            return misplaced;
        };
        let ListFrame {
            at: start,
            shape,
            items,
        } = list;
        if items.is_empty() {
            return misplaced;
        }
        let dotted = DottedFrame {
            at: start,
            shape,
            items,
            point: at,
        };
        self.frames.push(Frame::Dotted(dotted))?;
        self.depth -= 1;
        Ok(())
    }

    /// Takes a close.
    pub(crate) fn take_close(&mut self, at: u32, shape: Shape) -> Result<(), ReadError>
        requires { HasDepth self.old }
        ensures taken { OnOk result
            ((names : Table) → Takes names self.old self.new at (closing (shape_of shape))) }
        ensures refused { IfErr result
            (λ e. RefusesToken e self.old at (closing (shape_of shape))) }
        ensures depth { OnOk result (HasDepth self.new) }
    {
        if let Some(ended) = self.ended.take() {
            return self.close_ended(at, shape, ended);
        }
        match self.frames.pop() {
            Some(Frame::List(list)) => self.close_list(at, shape, list),
            Some(Frame::Dotted(list)) => Err(if list.shape.is_closed_by(shape) {
                ReadError::Fault(list.point, Refusal::BadDot)
            } else {
                ReadError::Fault(at, Refusal::StrayClose)
            }),
            Some(Frame::Prefix(start, _)) => Err(ReadError::Fault(start, Refusal::BadToken)),
            None => Err(ReadError::Fault(at, Refusal::StrayClose)),
        }
    }

    /// Closes a list that was taken from the frames.
    fn close_list(&mut self, at: u32, shape: Shape, list: ListFrame) -> Result<(), ReadError>
        requires depth { self.old.depth
            ≡ fold depth_inside 0 (self.old.frames.items ++ Frame.List list ∷ []) }
        requires bounded { self.old.depth ≤ 2050 }
        requires place { self.old.ended ≡ None }
        ensures shape { OnOk result
            (is_shape (Some (shape_of list.shape)) (shape_of shape) ≡ true) }
        ensures around { OnOk result ((names : Table) → enclosing_of names self.new
            ≡ put as_kept (place names self.old)
            (list_of list.at (map (written_form names) list.items) None)) }
        ensures refused { IfErr result (λ e.
            Refuses e (if is_shape (Some (shape_of list.shape)) (shape_of shape)
            then None else Some (fault at Refusal.StrayClose))) }
        ensures depth { OnOk result (HasDepth self.new) }
    {
        if !list.shape.is_closed_by(shape) {
            return Err(ReadError::Fault(at, Refusal::StrayClose));
        }
        self.depth -= list.items.len() + 1;
        let kind = DatumKind::List(list.items, None);
        self.put(Datum { at: list.at, kind })
    }

    /// Closes the list whose last datum is there.
    fn close_ended(&mut self, at: u32, shape: Shape, ended: Ended) -> Result<(), ReadError>
        requires depth { HasDepth self.old }
        requires room { self.old.depth < 2050 }
        requires place { self.old.ended ≡ None }
        ensures shape { OnOk result
            (is_shape (Some (shape_of ended.list.shape)) (shape_of shape) ≡ true) }
        ensures around { OnOk result ((names : Table) → enclosing_of names self.new
            ≡ put as_kept (place names self.old)
            (list_of ended.list.at (map (written_form names) ended.list.items)
            (Some (written_form names ended.last)))) }
        ensures refused { IfErr result (λ e.
            Refuses e (if is_shape (Some (shape_of ended.list.shape)) (shape_of shape)
            then None else Some (fault at Refusal.StrayClose))) }
        ensures depth { OnOk result (HasDepth self.new) }
    {
        let Ended { list, last } = ended;
        if !list.shape.is_closed_by(shape) {
            return Err(ReadError::Fault(at, Refusal::StrayClose));
        }
        let last = Boxed::new(self.alloc, last)?;
        let kind = DatumKind::List(list.items, Some(last));
        self.put(Datum { at: list.at, kind })
    }

    /// The data at the end of a text, where nothing is unclosed.
    pub(crate) fn finish(self) -> Result<Data, ReadError>
        ensures { (names : Table) → Answers names (answer_at_end (enclosing_of names self)) result }
    {
        let mut rest = self;
        if let Some(ended) = &rest.ended {
            return Err(ReadError::Fault(ended.list.at, Refusal::UnclosedList));
        }
        match rest.frames.pop() {
            Some(Frame::List(list)) => Err(ReadError::Fault(list.at, Refusal::UnclosedList)),
            Some(Frame::Dotted(list)) => Err(ReadError::Fault(list.at, Refusal::UnclosedList)),
            Some(Frame::Prefix(at, _)) => Err(ReadError::Fault(at, Refusal::BadToken)),
            None => Ok(rest.top),
        }
    }

    /// Puts a datum at its place.
    fn put(&mut self, datum: Datum) -> Result<(), ReadError>
        requires depth { HasDepth self.old }
        requires room { self.old.depth < 2050 }
        requires place { self.old.ended ≡ None }
        ensures around { OnOk result ((names : Table) →
            enclosing_of names self.new
            ≡ put as_kept (place names self.old) (written_form names datum)) }
        ensures refused { IfErr result (λ e. e ≡ memory_wanted) }
        ensures depth { OnOk result (HasDepth self.new) }
    {
        let mut datum = datum;
        loop {
            let Some(frame) = self.frames.pop() else {
                self.top.push(datum)?;
                return Ok(());
            };
            match frame {
                Frame::Prefix(at, prefix) => {
                    self.depth -= 2;
                    let inner = Boxed::new(self.alloc, datum)?;
                    let kind = DatumKind::Prefixed(prefix, inner);
                    datum = Datum { at, kind };
                }
                Frame::List(list) => return self.reopen(list, datum),
                Frame::Dotted(list) => {
                    self.end(list, datum);
                    return Ok(());
                }
            }
        }
    }

    /// Puts a datum behind the elements of a list that was taken from the frames.
    fn reopen(&mut self, list: ListFrame, datum: Datum) -> Result<(), ReadError>
        requires depth { self.old.depth
            ≡ fold depth_inside 0 (self.old.frames.items ++ Frame.List list ∷ []) }
        requires room { self.old.depth < 2050 }
        requires place { self.old.ended ≡ None }
        ensures around { OnOk result ((names : Table) → enclosing_of names self.new
            ≡ awaiting (in_list (place names self.old) list.at (shape_of list.shape)
            (map (written_form names) list.items ++ written_form names datum ∷ []))) }
        ensures refused { IfErr result (λ e. e ≡ memory_wanted) }
        ensures depth { OnOk result (HasDepth self.new) }
    {
        let mut list = list;
        list.items.push(datum)?;
        self.frames.push(Frame::List(list))?;
        self.depth += 1;
        Ok(())
    }

    /// Puts the datum after the dot of a list that was taken from the frames.
    fn end(&mut self, list: DottedFrame, last: Datum)
        requires depth { self.old.depth
            ≡ fold depth_inside 0 (self.old.frames.items ++ Frame.Dotted list ∷ []) }
        requires room { self.old.depth < 2050 }
        ensures around { (names : Table) → enclosing_of names self.new
            ≡ put as_kept (inside names (place names self.old) (Frame.Dotted list))
            (written_form names last) }
        ensures depth { HasDepth self.new }
    {
        self.depth -= list.items.len();
        self.ended = Some(Ended { list, last });
    }
}
