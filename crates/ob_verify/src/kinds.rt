//! Kinds of operands, and of names.

ghost use Rattle.std.specs.Prelude.{◌≡◌, ℕ, ◌+◌, ◌<◌, ◌≤◌, length, IsTrue};
ghost use Rattle.ob_code.specs.Kinds as spec;
ghost use Rattle.ob_mean.specs.RecordTypes as types_of;
ghost use Rattle.ob_code.specs.Kinds.{Covers, CoversAt, CoverAll, SameAt};

use ob_code::instr::{Length, NameKind};
use ob_code::kinds::Kind;
use ob_mean::TypeName;

/// No number of 32 bits is this or more.
pub(crate) const NUMBERS: usize = 2_147_483_648;

/// Whether the first is known of every operand of which the second is.
pub(crate) fn covers(expected: Kind, found: Kind) -> bool
    ensures { IsTrue result → Covers expected found }
{
    match expected {
        Kind::Number => true,
        Kind::UpTo(most) => match found {
            Kind::Number => false,
            Kind::UpTo(k) => k <= most,
            Kind::Inside(_, _, _) => false,
            Kind::Guarded(_, _, _) => false,
            Kind::Absent => true,
        },
        Kind::Inside(name, size, most) => match found {
            Kind::Number => false,
            Kind::UpTo(_) => false,
            Kind::Inside(other, cells, k) => other == name && cells == size && k <= most,
            Kind::Guarded(_, _, _) => false,
            Kind::Absent => true,
        },
        Kind::Guarded(name, cells, most) => match found {
            Kind::Number => false,
            Kind::UpTo(_) => false,
            Kind::Inside(_, _, _) => false,
            Kind::Guarded(other, more, k) => other == name && cells <= more && k <= most,
            Kind::Absent => true,
        },
        Kind::Absent => match found {
            Kind::Number => false,
            Kind::UpTo(_) => false,
            Kind::Inside(_, _, _) => false,
            Kind::Guarded(_, _, _) => false,
            Kind::Absent => true,
        },
    }
}

fn larger(one: usize, other: usize) -> usize
    ensures first { one ≤ result }
    ensures second { other ≤ result }
{
    if one < other { other } else { one }
}

fn smaller(one: usize, other: usize) -> usize
    ensures first { result ≤ one }
    ensures second { result ≤ other }
{
    if one < other { one } else { other }
}

/// What is known where one or the other is.
pub(crate) fn either(first: Kind, second: Kind) -> Kind
    ensures first { Covers result first }
    ensures second { Covers result second }
{
    match (first, second) {
        (Kind::Absent, _) => second,
        (_, Kind::Absent) => first,
        (Kind::UpTo(most), Kind::UpTo(k)) => Kind::UpTo(larger(most, k)),
        (Kind::Inside(name, size, most), Kind::Inside(other, cells, k))
            if name == other && size == cells => Kind::Inside(name, size, larger(most, k)),
        (Kind::Guarded(name, cells, most), Kind::Guarded(other, more, k)) if name == other => {
            Kind::Guarded(name, smaller(cells, more), larger(most, k))
        }
        _ => Kind::Number,
    }
}

/// The same of those at one place.
fn covers_at(expected: &[Kind], found: &[Kind], place: usize) -> bool
    ensures { IsTrue result → CoversAt expected.now found.now place }
{
    match expected.get(place) {
        Some(one) => match found.get(place) {
            Some(other) => covers(*one, *other),
            None => false,
        },
        None => false,
    }
}

/// The same of each place, where they are as many.
fn cover_each(expected: &[Kind], found: &[Kind]) -> bool
    requires { length expected.now ≡ length found.now }
    ensures { IsTrue result → CoverAll expected.now found.now }
{
    for place in 0..expected.len() {
        if !covers_at(expected, found, place) {
            return false;
        }
    }
    true
}

/// The same of as many.
pub(crate) fn cover_all(expected: &[Kind], found: &[Kind]) -> bool
    ensures { IsTrue result → CoverAll expected.now found.now }
{
    if expected.len() != found.len() {
        return false;
    }
    cover_each(expected, found)
}

pub(crate) fn first(kinds: &[Kind]) -> Kind
    ensures { result ≡ spec.first kinds.now }
{
    match kinds {
        [] => Kind::Number,
        [kind, ..] => *kind,
    }
}

pub(crate) fn second(kinds: &[Kind]) -> Kind
    ensures { result ≡ spec.second kinds.now }
{
    match kinds {
        [] => Kind::Number,
        [_, rest @ ..] => first(rest),
    }
}

pub(crate) fn literal(value: i32) -> Kind
    ensures { result ≡ spec.literal value }
{
    if value < 0 {
        return Kind::Number;
    }
    Kind::UpTo(value as usize)
}

/// A number that is at most `most` and `more` more.
#[tactic(auto, using(crate::proofs::Lows::low_high))]
fn more(most: usize, more: usize) -> Kind
    ensures { result ≡ spec.low (most + more) }
{
    match most.checked_add(more) {
        Some(sum) if sum < NUMBERS => Kind::UpTo(sum),
        _ => Kind::Number,
    }
}

/// A number of a cell that is at most `most` and `more` more after where the last element begins.
#[tactic(auto, using(crate::proofs::Lows::inside_far))]
fn inside(name: usize, size: usize, most: usize, more: usize) -> Kind
    ensures { result ≡ spec.inside name size (most + more) }
{
    match most.checked_add(more) {
        Some(sum) if sum <= size => Kind::Inside(name, size, sum),
        _ => Kind::Number,
    }
}

/// A number that is at most `most` and `more` more, in a record that has `cells` cells.
#[tactic(auto, using(crate::proofs::Lows::in_record_far))]
fn in_record(name: usize, cells: usize, most: usize, more: usize) -> Kind
    ensures { result ≡ spec.in_record name cells (most + more) }
{
    match most.checked_add(more) {
        Some(sum) if sum <= cells => Kind::Guarded(name, cells, sum),
        _ => Kind::Number,
    }
}

pub(crate) fn moved(cells: usize, kind: Kind) -> Kind
    ensures { result ≡ spec.moved cells kind }
{
    match kind {
        Kind::Number => Kind::Number,
        Kind::UpTo(most) => more(most, cells),
        Kind::Inside(name, size, most) => inside(name, size, most, cells),
        Kind::Guarded(name, all, most) => in_record(name, all, most, cells),
        Kind::Absent => Kind::Absent,
    }
}

/// The place of one of `count` elements of `size` cells, where that of the first is at most `most`.
#[tactic(auto, using(crate::proofs::Lows::low_high))]
fn one_of(count: usize, size: usize, most: usize) -> Kind
    ensures { result ≡ spec.one_of count size most }
{
    if count == 0 {
        return Kind::Absent;
    }
    match (count - 1).checked_mul(size) {
        Some(far) => more(most, far),
        None => Kind::Number,
    }
}

/// The place of one of `count` parts of `by` cells, where that of the first is within the array that a name stands for.
#[tactic(auto, using(crate::proofs::Lows::inside_far))]
fn one_inside(count: usize, by: usize, name: usize, size: usize, most: usize) -> Kind
    ensures { result ≡ spec.one_inside count by name size most }
{
    if count == 0 {
        return Kind::Absent;
    }
    match (count - 1).checked_mul(by) {
        Some(far) => inside(name, size, most, far),
        None => Kind::Number,
    }
}

/// The place of one of `count` parts of `by` cells, where that of the first is within a record.
#[tactic(auto, using(crate::proofs::Lows::in_record_far))]
fn one_in_record(count: usize, by: usize, name: usize, cells: usize, most: usize) -> Kind
    ensures { result ≡ spec.one_in_record count by name cells most }
{
    if count == 0 {
        return Kind::Absent;
    }
    match (count - 1).checked_mul(by) {
        Some(far) => in_record(name, cells, most, far),
        None => Kind::Number,
    }
}

pub(crate) fn element(length: Length, size: usize, kind: Kind) -> Kind
    ensures { result ≡ spec.element length size kind }
{
    match (kind, length) {
        (Kind::Number, _) => Kind::Number,
        (Kind::Absent, _) => Kind::Absent,
        (Kind::UpTo(most), Length::Elements(count)) => one_of(count, size, most),
        (Kind::UpTo(most), Length::OfName(name)) => inside(name, size, most, 0),
        (Kind::Inside(name, whole, most), Length::Elements(count)) => {
            one_inside(count, size, name, whole, most)
        }
        (Kind::Inside(_, _, _), Length::OfName(_)) => Kind::Number,
        (Kind::Guarded(name, cells, most), Length::Elements(count)) => {
            one_in_record(count, size, name, cells, most)
        }
        (Kind::Guarded(_, _, _), Length::OfName(_)) => Kind::Number,
    }
}

/// A place behind a guard: within a record of `cells` cells.
pub(crate) fn guarded(name: usize, cells: usize, kind: Kind) -> Kind
    ensures { result ≡ spec.guarded name cells kind }
{
    match kind {
        Kind::Number | Kind::Inside(_, _, _) => Kind::Number,
        Kind::UpTo(most) | Kind::Guarded(_, _, most) => Kind::Guarded(name, cells, most),
        Kind::Absent => Kind::Absent,
    }
}

/// How many cells a record of this type takes.
pub(crate) fn cells_of(types: &[TypeName]) -> usize
    ensures { result ≡ types_of.cells_of types.now }
{
    match types {
        [] => 0,
        [first, ..] => first.cells,
    }
}

fn name_is(one: NameKind, other: NameKind) -> bool
    ensures same { IsTrue result → one ≡ other }
    ensures only { one ≡ other → IsTrue result }
{
    match (one, other) {
        (NameKind::Cells(cells), NameKind::Cells(others)) => cells == others,
        (NameKind::ArrayOf(cells), NameKind::ArrayOf(others)) => cells == others,
        (NameKind::RecordOf(cells), NameKind::RecordOf(others)) => cells == others,
        _ => false,
    }
}

fn name_is_at(one: &[NameKind], other: &[NameKind], place: usize) -> bool
    ensures same { IsTrue result → SameAt one.now other.now place }
    ensures only { one.now ≡ other.now → place < length one.now → IsTrue result }
{
    match one.get(place) {
        Some(kind) => match other.get(place) {
            Some(second) => name_is(*kind, *second),
            None => false,
        },
        None => false,
    }
}

fn each_same(one: &[NameKind], other: &[NameKind]) -> bool
    requires { length one.now ≡ length other.now }
    ensures same { IsTrue result → one.now ≡ other.now }
    ensures only { one.now ≡ other.now → IsTrue result }
{
    for place in 0..one.len() {
        if !name_is_at(one, other, place) {
            return false;
        }
    }
    true
}

/// Whether these are kinds of the same names.
pub(crate) fn are_same(one: &[NameKind], other: &[NameKind]) -> bool
    ensures same { IsTrue result → one.now ≡ other.now }
    ensures only { one.now ≡ other.now → IsTrue result }
{
    if one.len() != other.len() {
        return false;
    }
    each_same(one, other)
}
