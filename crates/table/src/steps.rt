// One step of reading: what the bytes from a place on are, and whether an entry may stand in a table there.
ghost use Rattle.std.specs.Prelude.{◌≡◌, ◌+◌, ◌<◌, length, get_or, drop};
ghost use Rattle.entries.specs.Refusals.{cut_short, number_of, number_or_none};
ghost use Rattle.kinds.specs.Kinds.{form_of};
ghost use Rattle.entries.specs.Said.{refusal, or_else, told, said};
ghost use Rattle.table.specs.Steps.{one_more, room_by, no_room, limit, misnamed, number_at, number_place, named_at, offending, some_place};
ghost use Rattle.table.specs.Steps.{body_of, decoded, begins_row, placed, unless_placed, permitted, step_of, entered};

use crate::Table;
use entries::Entry;
use entries::refusals::{Reason, Refusal};
use kinds::{Form, Kind, Names};

// So many constraints, rows and questions.
#[derive(Clone, Copy, Debug, PartialEq, Eq)]
pub struct Tally {
    pub constraints: usize,
    pub rows: usize,
    pub questions: usize,
}

// What the bytes from a kind byte on are: of no listed kind, of a kind whose body is cut short, or an entry.
// No `Result`: which refusal it is hangs on what stands before, so none is passed on by `?`.
#[derive(Clone, Copy, Debug, PartialEq, Eq)]
pub enum Decoded {
    Unknown,
    Cut(Kind),
    Full(Entry),
}

// The count with an entry of a kind more, for which there is room.
pub(crate) fn one_more(kind: Kind, before: Tally) -> Tally
    requires { no_room kind before ≡ 0 }
    ensures { result ≡ one_more kind before }
{
    let mut more = before;
    match kind {
        Kind::Row(_) => {
            more.rows = before.rows + 1;
        }
        Kind::Question(_) => {
            more.questions = before.questions + 1;
        }
        Kind::Constraint(_) => {
            more.constraints = before.constraints + 1;
        }
        Kind::Supplier => {}
    }
    more
}

// Out of order for an entry that comes too late, then the reason against one more than there may be; none where there is room.
fn room_by(late: bool, count: usize, limit: usize, full: Reason) -> Option<Reason>
    ensures { number_or_none result ≡ room_by late count limit (number_of full) }
{
    if late {
        return Some(Reason::OutOfOrder);
    }
    if count < limit { None } else { Some(full) }
}

// Why there is no room for an entry of a kind, if there is none.
#[tactic(auto, unfolding(crate::specs::Steps::no_room))]
fn no_room(kind: Kind, before: Tally) -> Option<Reason>
    ensures { number_or_none result ≡ no_room kind before }
{
    let asked = 0 < before.questions;
    let ruled = 0 < before.rows;
    match kind {
        Kind::Row(_) => room_by(asked, before.rows, Table::ROWS, Reason::TooManyRows),
        Kind::Question(_) => room_by(
            false,
            before.questions,
            Table::QUESTIONS,
            Reason::TooManyQuestions,
        ),
        Kind::Constraint(_) => room_by(
            ruled | asked,
            before.constraints,
            Table::CONSTRAINTS,
            Reason::TooManyConstraints,
        ),
        Kind::Supplier => if asked {
            Some(Reason::OutOfOrder)
        } else {
            None
        },
    }
}

// What a number must be below, by what it names.
fn limit_of(names: Names, before: Tally) -> usize
    ensures { result ≡ limit names before }
{
    match names {
        Names::Nothing => 0,
        Names::Predicates => Table::PREDICATES,
        Names::Rows => before.rows,
        Names::Questions => before.questions,
        Names::Suppliers => entries::NUMBERS,
    }
}

// Why a number that is not below its limit is refused.
fn misnamed_of(names: Names) -> Reason
    ensures { number_of result ≡ misnamed names }
{
    match names {
        Names::Nothing => Reason::NotToBeNamed,
        Names::Predicates => Reason::PredicateTooHigh,
        Names::Rows => Reason::NotToBeNamed,
        Names::Questions => Reason::NotToBeNamed,
        Names::Suppliers => Reason::NotToBeNamed,
    }
}

// Whether number i of a body is below its limit, or not there.
fn named_at(numbers: usize, below: usize, i: usize, x: u8) -> bool
    ensures { result ≡ named_at numbers below i x }
{
    if i < numbers {
        entries::index(x) < below
    } else {
        true
    }
}

// Where number i of a body stands, counted from the kind byte.
fn number_place(i: usize) -> usize
    requires { i < 2 }
    ensures { result ≡ number_place i }
{
    i + 1
}

// The place of the first of an entry's numbers, in the body's order, that is not below its limit, if one is not. Its kind's form is told.
#[tactic(auto, unfolding(crate::specs::Steps::offending))]
fn offending_in(form: Form, e: Entry, before: Tally) -> Option<usize>
    requires { form ≡ form_of e.kind }
    ensures { result ≡ some_place (offending e before) }
{
    let below = limit_of(form.names, before);
    let first = named_at(form.numbers, below, 0, e.a);
    let second = named_at(form.numbers, below, 1, e.b);
    // one test, where nothing offends: almost every entry
    if first & second {
        return None;
    }
    if first {
        Some(number_place(1))
    } else {
        Some(number_place(0))
    }
}

// Number i of the body behind a kind byte; 0 where the body has none.
fn number_at(s: &[u8], at: usize, numbers: usize, i: usize) -> u8
    requires { (at + numbers < length s.now) × (i < 2) }
    ensures { result ≡ number_at numbers i (drop (at + 1) s.now) }
{
    if i < numbers {
        s[at + number_place(i)]
    } else {
        0
    }
}

// The body of an entry of a listed kind, whose kind byte stands at a place.
#[tactic(auto, using(crate::proofs::Decoding::body_cut, crate::proofs::Decoding::body_whole), unfolding(crate::specs::Steps::body_of))]
fn body_at(kind: Kind, s: &[u8], at: usize) -> Decoded
    requires { at < length s.now }
    ensures { result ≡ body_of kind (drop (at + 1) s.now) }
{
    let numbers = entries::body_size(kind);
    if s.len() - at <= numbers {
        return Decoded::Cut(kind);
    }
    let a = number_at(s, at, numbers, 0);
    let b = number_at(s, at, numbers, 1);
    Decoded::Full(Entry { kind, a, b })
}

// What the bytes from a kind byte on are.
#[tactic(auto, unfolding(crate::specs::Steps::decoded))]
fn decode(s: &[u8], at: usize) -> Decoded
    requires { at < length s.now }
    ensures { result ≡ decoded (get_or s.now at 0) (drop (at + 1) s.now) }
{
    match kinds::kind_of(s[at]) {
        Some(kind) => body_at(kind, s, at),
        None => Decoded::Unknown,
    }
}

// Whether a row's kind byte stands at a place.
fn row_at(s: &[u8], at: usize) -> bool
    ensures { result ≡ begins_row (drop at s.now) }
{
    if s.len() <= at {
        return false;
    }
    kinds::of_row(kinds::kind_of(s[at]))
}

// Whether an entry behind a supplier in force is no idle supplier; the next entry's kind byte would stand at a place. Of a text
// `placed_line` says the same: one function for both would be lent how to look for what follows.
#[tactic(auto, unfolding(crate::specs::Steps::placed))]
fn placed_at(e: Entry, force: u8, s: &[u8], next: usize) -> bool
    ensures { result ≡ placed e force (begins_row (drop next s.now)) }
{
    match e.kind {
        Kind::Row(_) => true,
        Kind::Question(_) => true,
        Kind::Constraint(_) => true,
        Kind::Supplier => (e.a != force) & row_at(s, next),
    }
}

// Why an entry of a kind may not stand where it does, whatever its numbers: there is no room, or it is an idle supplier.
fn out_of_place(kind: Kind, well: bool, before: Tally) -> Option<Reason>
    ensures { number_or_none result ≡ or_else (no_room kind before) (unless_placed well) }
{
    let idle = if well {
        None
    } else {
        Some(Reason::IdleSupplier)
    };
    no_room(kind, before).or(idle)
}

// An entry that may stand behind so many others, or why it may not; it is placed well, or is an idle supplier. A place is counted from the kind byte.
#[inline(always)]
pub(crate) fn permit(e: Entry, well: bool, before: Tally) -> Result<Entry, Refusal>
    ensures { said result ≡ permitted e well before }
{
    if let Some(reason) = out_of_place(e.kind, well, before) {
        return Err(Refusal::of(reason));
    }
    let form = kinds::form_of(e.kind);
    match offending_in(form, e, before) {
        None => Ok(e),
        Some(place) => Err(Refusal {
            reason: misnamed_of(form.names),
            place,
        }),
    }
}

// Why an entry whose body is cut short is refused: its room is asked for first.
fn cut_short(kind: Kind, before: Tally) -> Refusal
    ensures { told result ≡ refusal (or_else (no_room kind before) cut_short) 0 }
{
    match no_room(kind, before) {
        Some(reason) => Refusal::of(reason),
        None => Refusal::of(Reason::CutShort),
    }
}

// The entry whose kind byte stands at a place, behind a supplier in force and so many others, or why it may not stand there.
pub(crate) fn step_at(s: &[u8], at: usize, force: u8, before: Tally) -> Result<Entry, Refusal>
    requires { at < length s.now }
    ensures { said result ≡ step_of (get_or s.now at 0) (drop (at + 1) s.now) force before }
{
    match decode(s, at) {
        Decoded::Unknown => Err(Refusal::of(Reason::Unlisted)),
        Decoded::Cut(kind) => Err(cut_short(kind, before)),
        Decoded::Full(e) => permit(e, placed_at(e, force, s, at + entries::size_of(e)), before),
    }
}

// The count with an entry more, or why it may not stand behind so many others; it is placed well, or is an idle supplier.
pub fn enter(e: Entry, well: bool, before: Tally) -> Result<Tally, Refusal>
    ensures { said result ≡ entered before (permitted e well before) }
{
    permit(e, well, before)?;
    Ok(one_more(e.kind, before))
}
