// The services for the catalogue server: each takes a table's bytes, or a text, reads it first, and answers a struct of plain numbers.
// `refusal` is 01's number, 0 for none, and `place` its place; a field that says nothing in a case is 0. Each struct says both again, since C reads it as it
// stands in memory.
#![tactic(auto)]

ghost use Rattle.std.specs.Prelude.{◌≡◌, ◌≤◌, ◌^◌, leb};
ghost use Rattle.pierstride.specs.Masks.{beyond, known_below, bad_masks};
ghost use Rattle.entries.specs.Said.{answered, unless, said};
ghost use Rattle.table.specs.Steps.{predicate_limit};
ghost use Rattle.pierstride.specs.Services.{asked_wrongly, written_of, masked};
ghost use Rattle.pierstride.specs.Services.{says_decide, says_possible, says_verdict, says_breaks};
ghost use Rattle.pierstride.specs.Services.{to_text_answer, to_text_output, from_text_answer, from_text_output};
ghost use Rattle.pierstride.specs.Services.{read_answer, decide_answer, possible_answer, verdict_answer, entry_answer, strike_answer, strike_output};
ghost use Rattle.pierstride.specs.Services.{suppliers_answer, suppliers_output, breaks_answer, dimacs_answer, dimacs_output};

use belnap::Decision;
use decide::Facts;
use entries::refusals::{Reason, Refusal};
use lookup::Part;
use table::Table;
use walk::Reply;

// How many rows and questions a table has, and n.
#[repr(C)]
#[derive(Clone, Copy)]
pub struct Counts {
    pub refusal: u32,
    pub place: usize,
    pub rows: u32,
    pub questions: u32,
    pub predicates: u32,
}

// The code of a row's decision.
#[repr(C)]
#[derive(Clone, Copy)]
pub struct Decided {
    pub refusal: u32,
    pub place: usize,
    pub code: u32,
}

// The mask of the decisions that remain possible for a row.
#[repr(C)]
#[derive(Clone, Copy)]
pub struct Remaining {
    pub refusal: u32,
    pub place: usize,
    pub set: u32,
}

// The replies to a question, as numbers for C.
pub const HOLDS: u32 = 1;

pub const FAILS: u32 = 2;

pub const UNFINISHED: u32 = 3;

// The reply to a question: it holds, it fails with the breaking request, or the walk is unfinished.
#[repr(C)]
#[derive(Clone, Copy)]
pub struct Verdict {
    pub refusal: u32,
    pub place: usize,
    pub reply: u32,
    pub request: u32,
    pub visits: u32,
}

// Where a row's own bytes stand in the caller's table.
#[repr(C)]
#[derive(Clone, Copy)]
pub struct Located {
    pub refusal: u32,
    pub place: usize,
    pub start: usize,
    pub length: usize,
}

// How many bytes were written.
#[repr(C)]
#[derive(Clone, Copy)]
pub struct Written {
    pub refusal: u32,
    pub place: usize,
    pub length: usize,
}

// Whether a request from outside keeps the constraints and breaks a question: 1 or 0.
#[repr(C)]
#[derive(Clone, Copy)]
pub struct Judged {
    pub refusal: u32,
    pub place: usize,
    pub breaks: u32,
}

// The table's rows, questions and n.
pub fn pier_read(table: &[u8]) -> Counts
    ensures { result ≡ read_answer table.now }
{
    match table::accept(table) {
        Ok(t) => Counts {
            refusal: 0,
            place: 0,
            rows: t.tally.rows as u32,
            questions: t.tally.questions as u32,
            predicates: t.predicates as u32,
        },
        Err(why) => Counts {
            refusal: u32::from(why.reason.number()),
            place: why.place,
            rows: 0,
            questions: 0,
            predicates: 0,
        },
    }
}

// How many predicates a mask has a bit for, and the least mask with a bit beyond them. The walk has its own two, so that an edit of these errs alone.
const PREDICATES: u8 = Table::PREDICATES as u8;

const MASKS: u32 = 1 << Table::PREDICATES;

// Whether a mask has a bit beyond its predicates.
fn mask_beyond(mask: u32) -> bool
    ensures { result ≡ beyond mask }
{
    MASKS <= mask
}

// What was asked is refused where the row or question is not there, then where the masks are bad.
fn ask(missing: bool, bad: bool) -> Result<(), Refusal>
    ensures { said result ≡ unless (asked_wrongly missing bad) (answered tt) }
{
    if missing {
        return Err(Refusal::of(Reason::NotThere));
    }
    if bad {
        return Err(Refusal::of(Reason::BadMask));
    }
    Ok(())
}

// What a row decides at a complete request, given as its yes mask.
pub fn pier_decide(table: &[u8], row: u32, request: u32) -> Decided
    ensures { result ≡ decide_answer table.now row request }
{
    match decide_row(table, row as usize, request) {
        Ok(v) => Decided {
            refusal: 0,
            place: 0,
            code: u32::from(belnap::code_of(v)),
        },
        Err(why) => Decided {
            refusal: u32::from(why.reason.number()),
            place: why.place,
            code: 0,
        },
    }
}

fn decide_row(table: &[u8], row: usize, request: u32) -> Result<Decision, Refusal>
    ensures { said result ≡ says_decide table.now row request }
{
    let t = table::accept(table)?;
    ask(t.tally.rows <= row, mask_beyond(request))?;
    Ok(decide::decide(t, row, request))
}

// Whether each predicate that is yes is known. By `all` over the range the code is shorter by two lines, and its proof longer by a law over ranges.
fn all_known(facts: Facts) -> bool
    ensures { result ≡ known_below predicate_limit facts.known facts.yes }
{
    for i in 0..PREDICATES {
        if decide::bit_of(facts.yes, i) & !decide::bit_of(facts.known, i) {
            return false;
        }
    }
    true
}

// Whether the masks of a request with missing facts are bad.
fn masks_bad(facts: Facts) -> bool
    ensures { result ≡ bad_masks facts.known facts.yes }
{
    (mask_beyond(facts.known) | mask_beyond(facts.yes)) | !all_known(facts)
}

// Which decisions remain possible for a row, with these predicates known and these of them yes.
pub fn pier_possible(table: &[u8], row: u32, known: u32, request: u32) -> Remaining
    ensures { result ≡ possible_answer table.now row known request }
{
    let facts = Facts {
        known,
        yes: request,
    };
    match possible_of_row(table, row as usize, facts) {
        Ok(set) => Remaining {
            refusal: 0,
            place: 0,
            set: u32::from(set),
        },
        Err(why) => Remaining {
            refusal: u32::from(why.reason.number()),
            place: why.place,
            set: 0,
        },
    }
}

fn possible_of_row(table: &[u8], row: usize, facts: Facts) -> Result<u8, Refusal>
    ensures { said result ≡ masked (says_possible table.now row facts.known facts.yes) }
{
    let t = table::accept(table)?;
    ask(t.tally.rows <= row, masks_bad(facts))?;
    Ok(possible::possible(t, row, facts))
}

// The verdict on a question, within a budget of visits.
pub fn pier_verdict(table: &[u8], question: u32, budget: u32) -> Verdict
    ensures { result ≡ verdict_answer table.now question budget }
{
    let (refusal, place, reply, request, visits) = match verdict_on(
        table,
        question as usize,
        budget,
    ) {
        Ok(Reply::Holds(visits)) => (0, 0, HOLDS, 0, visits),
        Ok(Reply::Fails(request, visits)) => (0, 0, FAILS, request, visits),
        Ok(Reply::Unfinished(visits)) => (0, 0, UNFINISHED, 0, visits),
        Err(why) => (u32::from(why.reason.number()), why.place, 0, 0, 0),
    };
    Verdict {
        refusal,
        place,
        reply,
        request,
        visits,
    }
}

fn verdict_on(table: &[u8], question: usize, budget: u32) -> Result<Reply, Refusal>
    ensures { said result ≡ says_verdict table.now question budget }
{
    let t = table::accept(table)?;
    ask(t.tally.questions <= question, false)?;
    Ok(walk::verdict(t, question, budget))
}

// Whether a mask has a bit from n up.
fn mask_from(mask: u32, n: u32) -> bool
    requires { n ≤ predicate_limit }
    ensures { result ≡ leb (2 ^ n) mask }
{
    (1 << n) <= mask
}

// Whether a request, given as its yes mask, keeps the constraints and breaks a question.
pub fn pier_breaks(table: &[u8], question: u32, request: u32) -> Judged
    ensures { result ≡ breaks_answer table.now question request }
{
    match breaks_question(table, question as usize, request) {
        Ok(broken) => Judged {
            refusal: 0,
            place: 0,
            breaks: u32::from(broken),
        },
        Err(why) => Judged {
            refusal: u32::from(why.reason.number()),
            place: why.place,
            breaks: 0,
        },
    }
}

fn breaks_question(table: &[u8], question: usize, request: u32) -> Result<bool, Refusal>
    ensures { said result ≡ says_breaks table.now question request }
{
    let t = table::accept(table)?;
    let bad = mask_from(request, t.predicates as u32);
    ask(t.tally.questions <= question, bad)?;
    Ok(walk::breaks(t, question, request))
}

// Where a row's own bytes stand in the table.
pub fn pier_entry(table: &[u8], row: u32) -> Located
    ensures { result ≡ entry_answer table.now row }
{
    match lookup::find(table, row) {
        Ok(part) => Located {
            refusal: 0,
            place: 0,
            start: part.start,
            length: part.length,
        },
        Err(why) => Located {
            refusal: u32::from(why.reason.number()),
            place: why.place,
            start: 0,
            length: 0,
        },
    }
}

// What a call that writes answers, as numbers.
fn answer_of(output: Result<usize, Refusal>) -> Written
    ensures { result ≡ written_of (said output) }
{
    match output {
        Ok(length) => Written {
            refusal: 0,
            place: 0,
            length,
        },
        Err(why) => Written {
            refusal: u32::from(why.reason.number()),
            place: why.place,
            length: 0,
        },
    }
}

// The table without a row, over the front of the lent output; a refusal changes no lent byte.
pub fn pier_strike(table: &[u8], row: u32, out: &mut [u8]) -> Written
    ensures answer { result ≡ strike_answer table.now row out.old }
    ensures output { out.new ≡ strike_output table.now row out.old }
{
    answer_of(strike::strike(table, row, out))
}

// The suppliers of the rows that a row reaches, itself included, each once, rising, over the front of the lent output; a refusal changes no lent byte.
pub fn pier_suppliers(table: &[u8], row: u32, out: &mut [u8]) -> Written
    ensures answer { result ≡ suppliers_answer table.now row out.old }
    ensures output { out.new ≡ suppliers_output table.now row out.old }
{
    answer_of(suppliers::suppliers(table, row, out))
}

// The negation of a question as a DIMACS CNF file, over the front of the lent output; a refusal changes no lent byte.
pub fn pier_dimacs(table: &[u8], question: u32, out: &mut [u8]) -> Written
    ensures answer { result ≡ dimacs_answer table.now question out.old }
    ensures output { out.new ≡ dimacs_output table.now question out.old }
{
    answer_of(dimacs::file(table, question, out))
}

// The text of a table, over the front of the lent output; a refusal changes no lent byte.
pub fn pier_to_text(table: &[u8], out: &mut [u8]) -> Written
    ensures answer { result ≡ to_text_answer table.now out.old }
    ensures output { out.new ≡ to_text_output table.now out.old }
{
    answer_of(text::to_text(table, out))
}

// The bytes of the table that a text spells, over the front of the lent output; the place of every refusal but 11 is a line's number.
pub fn pier_from_text(text: &[u8], out: &mut [u8]) -> Written
    ensures answer { result ≡ from_text_answer text.now out.old }
    ensures output { out.new ≡ from_text_output text.now out.old }
{
    answer_of(text::from_text(text, out))
}
