//! Whether parts are those of an answer in form: shapes and pairs.

ghost use Rattle.std.specs.Prelude.{◌≡◌, ◌<◌, ◌^◌, ◌-◌, nat_lt};
ghost use Rattle.std.specs.List.{list_all, list_any};
ghost use Rattle.kan_model.specs.Answers.InForm.{apart, ascends, names_in_form};
ghost use Rattle.kan_model.specs.Answers.Order.{stands_in};
ghost use Rattle.reify.specs.Shapes.{all_whole, spells};
ghost use Rattle.answer_reading.specs.Forming.{all_different, are_kinds_formed, are_whole};
ghost use Rattle.answer_reading.specs.Forming.{count_from, is_below, is_difference_formed};
ghost use Rattle.answer_reading.specs.Forming.{is_free_of, is_higher, is_name, is_pair_formed};
ghost use Rattle.answer_reading.specs.Forming.{next_count, pair_before, pair_eq, pairs_eq};
ghost use Rattle.answer_reading.specs.Forming.{shape_eq, shapes_eq, wanted_after};

use crate::constraints::{Kinds, Parts};
use reify::{NamePair, NamePairs, Shape};

// The next number of names, where a shape may come.
fn next_count(count: usize, shape: Shape) -> Option<usize>
    requires { count < 2 ^ 63 }
    ensures { result ≡ next_count count shape }
{
    match shape {
        Shape::Name(name) => {
            if (name as usize) < count {
                Some(count)
            } else if name as usize == count {
                Some(count + 1)
            } else {
                None
            }
        }
        _ => Some(count),
    }
}

/// How many names there are, where they come in order.
pub(crate) fn count_names(shapes: &[Shape]) -> Option<usize>
    ensures { result ≡ count_from 0 shapes.now }
{
    let mut count = 0;
    for shape in shapes {
        match next_count(count, *shape) {
            Some(next) => count = next,
            None => return None,
        }
    }
    Some(count)
}

// Whether a shape is no name from a number on.
fn is_below(count: usize, shape: Shape) -> bool
    ensures { result ≡ is_below count shape }
{
    match shape {
        Shape::Name(name) => (name as usize) < count,
        _ => true,
    }
}

// Whether all names lie below a number.
fn are_below(count: usize, shapes: &[Shape]) -> bool
    ensures { result ≡ list_all (is_below count) shapes.now }
{
    shapes.iter().all(|shape| is_below(count, *shape))
}

// Whether a shape is a name.
fn is_name(name: u64, shape: Shape) -> bool
    ensures { result ≡ is_name name shape }
{
    match shape {
        Shape::Name(other) => name == other,
        _ => false,
    }
}

// Whether a name is among shapes.
fn has_name(name: u64, shapes: &[Shape]) -> bool
    ensures { result ≡ list_any (is_name name) shapes.now }
{
    shapes.iter().any(|shape| is_name(name, *shape))
}

// Whether a term is no name up to this one.
fn is_higher(name: u64, shapes: &[Shape]) -> bool
    ensures { result ≡ is_higher name shapes.now }
{
    match shapes.first() {
        Some(Shape::Name(other)) => name < *other,
        _ => true,
    }
}

// Whether a pair is over the first names, and a name in it replaced by none before it.
fn is_pair_formed(count: usize, pair: &NamePair) -> bool
    ensures { result ≡ is_pair_formed count pair.now }
{
    ((pair.name as usize) < count)
        & are_below(count, pair.term.items())
        & is_higher(pair.name, pair.term.items())
}

// Whether all pairs are so.
fn are_pairs_formed(count: usize, pairs: &[NamePair]) -> bool
    ensures { result ≡ list_all (is_pair_formed count) pairs.now }
{
    for pair in pairs {
        if !is_pair_formed(count, pair) {
            return false;
        }
    }
    true
}

// Whether no term of pairs has a name.
fn is_free_of(pairs: &[NamePair], name: u64) -> bool
    ensures { result ≡ is_free_of pairs.now name }
{
    for pair in pairs {
        if has_name(name, pair.term.items()) {
            return false;
        }
    }
    true
}

// Whether no term of pairs has a name that one of them replaces.
fn are_replaced(pairs: &[NamePair]) -> bool
    ensures { result ≡ list_all (λ p. is_free_of pairs.now p.name) pairs.now }
{
    for pair in pairs {
        if !is_free_of(pairs, pair.name) {
            return false;
        }
    }
    true
}

// Whether pairs stand in the order of their names.
fn do_pairs_ascend(pairs: &[NamePair]) -> bool
    ensures { result ≡ ascends pair_before pairs.now }
{
    for at in 1..pairs.len() {
        if pairs[at - 1].name >= pairs[at].name {
            return false;
        }
    }
    true
}

// Whether pairs are a solved form over the first names.
fn is_difference_formed(count: usize, pairs: &[NamePair]) -> bool
    ensures { result ≡ is_difference_formed count pairs.now }
{
    !pairs.is_empty()
        & are_pairs_formed(count, pairs)
        & are_replaced(pairs)
        & do_pairs_ascend(pairs)
}

/// Whether all disequalities are solved forms over the first names.
pub(crate) fn are_solved(count: usize, disequalities: &[NamePairs]) -> bool
    ensures { result ≡ list_all (is_difference_formed count) disequalities.now }
{
    for pairs in disequalities {
        if !is_difference_formed(count, pairs.items()) {
            return false;
        }
    }
    true
}

// Whether two shapes are the same.
fn is_same_shape(one: Shape, other: Shape) -> bool
    ensures { result ≡ shape_eq one other }
{
    match one {
        Shape::Pair => matches!(other, Shape::Pair),
        Shape::Name(name) => matches!(other, Shape::Name(found) if name == found),
        Shape::Sym(symbol) => matches!(other, Shape::Sym(found) if symbol == found),
        Shape::Str(text) => matches!(other, Shape::Str(found) if text == found),
        Shape::Num(number) => matches!(other, Shape::Num(found) if number == found),
        Shape::Truth(truth) => matches!(other, Shape::Truth(found) if truth == found),
        Shape::Nil => matches!(other, Shape::Nil),
    }
}

// Whether two lists of shapes are the same.
fn are_same_shapes(one: &[Shape], other: &[Shape]) -> bool
    ensures { result ≡ shapes_eq one.now other.now }
{
    if one.len() != other.len() {
        return false;
    }
    for at in 0..one.len() {
        if !is_same_shape(one[at], other[at]) {
            return false;
        }
    }
    true
}

// Whether two pairs are the same.
fn is_same_pair(one: &NamePair, other: &NamePair) -> bool
    ensures { result ≡ pair_eq one.now other.now }
{
    (one.name == other.name) & are_same_shapes(one.term.items(), other.term.items())
}

// Whether two disequalities are the same.
fn is_same_difference(one: &[NamePair], other: &[NamePair]) -> bool
    ensures { result ≡ pairs_eq one.now other.now }
{
    if one.len() != other.len() {
        return false;
    }
    for at in 0..one.len() {
        if !is_same_pair(&one[at], &other[at]) {
            return false;
        }
    }
    true
}

// Whether a disequality is among others.
fn is_among(pairs: &[NamePair], disequalities: &[NamePairs]) -> bool
    ensures { result ≡ list_any (pairs_eq pairs.now) disequalities.now }
{
    for other in disequalities {
        if is_same_difference(pairs, other.items()) {
            return true;
        }
    }
    false
}

/// Whether no two disequalities are the same.
pub(crate) fn are_different(disequalities: &[NamePairs]) -> bool
    ensures { result ≡ all_different disequalities.now }
{
    for at in 0..disequalities.len() {
        if is_among(disequalities[at].items(), &disequalities[at + 1..]) {
            return false;
        }
    }
    true
}

// Whether names stand in order.
fn do_names_ascend(names: &[u64]) -> bool
    ensures { result ≡ ascends nat_lt names.now }
{
    for at in 1..names.len() {
        if names[at - 1] >= names[at] {
            return false;
        }
    }
    true
}

// Whether names are among the first ones.
fn are_few(count: usize, names: &[u64]) -> bool
    ensures { result ≡ list_all (λ v. nat_lt v count) names.now }
{
    for name in names {
        if *name as usize >= count {
            return false;
        }
    }
    true
}

/// Whether names are among the first ones, each once and in order.
pub(crate) fn are_names_formed(count: usize, names: &[u64]) -> bool
    ensures { result ≡ names_in_form count names.now }
{
    are_few(count, names) & do_names_ascend(names)
}

// Whether a name is among others.
fn stands_in(names: &[u64], name: u64) -> bool
    ensures { result ≡ stands_in names.now name }
{
    names.iter().any(|other| name == *other)
}

/// Whether no name is in both lists.
pub(crate) fn are_apart(one: &[u64], other: &[u64]) -> bool
    ensures { result ≡ apart one.now other.now }
{
    one.iter().all(|name| !stands_in(other, *name))
}

/// Whether the names of types are in form, and none has two types.
pub(crate) fn are_kinds_formed(count: usize, kinds: &Kinds) -> bool
    ensures { result ≡ are_kinds_formed count kinds.now.numbers.items kinds.now.symbols.items
        kinds.now.strings.items }
{
    are_names_formed(count, &kinds.numbers)
        & are_names_formed(count, &kinds.symbols)
        & are_names_formed(count, &kinds.strings)
        & are_apart(&kinds.numbers, &kinds.symbols)
        & are_apart(&kinds.strings, &kinds.symbols)
        & are_apart(&kinds.numbers, &kinds.strings)
}

// How many terms are wanted behind a shape.
fn wanted_after(shape: Shape, wanted: usize) -> usize
    requires some { 0 < wanted }
    requires few { wanted < 2 ^ 63 }
    ensures { result ≡ wanted_after shape (wanted - 1) }
{
    match shape {
        Shape::Pair => wanted + 1,
        _ => wanted - 1,
    }
}

// Whether shapes spell one term.
fn is_whole(shapes: &[Shape]) -> bool
    ensures { result ≡ spells 1 shapes.now }
{
    let mut wanted: usize = 1;
    for shape in shapes {
        if wanted == 0 {
            return false;
        }
        wanted = wanted_after(*shape, wanted);
    }
    wanted == 0
}

// Whether each pair has one term.
fn are_pairs_whole(pairs: &[NamePair]) -> bool
    ensures { result ≡ all_whole pairs.now }
{
    for pair in pairs {
        if !is_whole(pair.term.items()) {
            return false;
        }
    }
    true
}

// Whether each pair of disequalities has one term.
fn are_differences_whole(disequalities: &[NamePairs]) -> bool
    ensures { result ≡ list_all all_whole disequalities.now }
{
    for pairs in disequalities {
        if !are_pairs_whole(pairs.items()) {
            return false;
        }
    }
    true
}

/// Whether all terms of an answer's parts are whole ones.
pub(crate) fn are_whole(parts: &Parts) -> bool
    ensures { result ≡ are_whole parts.now.term parts.now.disequalities.items }
{
    is_whole(parts.term.items()) & are_differences_whole(&parts.disequalities)
}
