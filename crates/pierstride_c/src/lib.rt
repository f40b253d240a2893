// The services of the crate pierstride, exported to C: each call is the service of its name, and promises what that promises.
#![tactic(auto)]

ghost use Rattle.std.specs.Prelude.{◌≡◌};
ghost use Rattle.pierstride.specs.Services.{to_text_answer, to_text_output, from_text_answer, from_text_output};
ghost use Rattle.pierstride.specs.Services.{read_answer, decide_answer, possible_answer, verdict_answer, entry_answer, strike_answer, strike_output};
ghost use Rattle.pierstride.specs.Services.{suppliers_answer, suppliers_output, breaks_answer, dimacs_answer, dimacs_output};

use pierstride::{Counts, Decided, Judged, Located, Remaining, Verdict, Written};

// The table's rows, questions and n.
#[unsafe(no_mangle)]
pub extern "C" fn pier_read(table: &[u8]) -> Counts
    ensures { result ≡ read_answer table.now }
{
    pierstride::pier_read(table)
}

// What a row decides at a complete request, given as its yes mask.
#[unsafe(no_mangle)]
pub extern "C" fn pier_decide(table: &[u8], row: u32, request: u32) -> Decided
    ensures { result ≡ decide_answer table.now row request }
{
    pierstride::pier_decide(table, row, request)
}

// Which decisions remain possible for a row, with these predicates known and these of them yes.
#[unsafe(no_mangle)]
pub extern "C" fn pier_possible(table: &[u8], row: u32, known: u32, request: u32) -> Remaining
    ensures { result ≡ possible_answer table.now row known request }
{
    pierstride::pier_possible(table, row, known, request)
}

// The verdict on a question, within a budget of visits.
#[unsafe(no_mangle)]
pub extern "C" fn pier_verdict(table: &[u8], question: u32, budget: u32) -> Verdict
    ensures { result ≡ verdict_answer table.now question budget }
{
    pierstride::pier_verdict(table, question, budget)
}

// Whether a request, given as its yes mask, keeps the constraints and breaks a question.
#[unsafe(no_mangle)]
pub extern "C" fn pier_breaks(table: &[u8], question: u32, request: u32) -> Judged
    ensures { result ≡ breaks_answer table.now question request }
{
    pierstride::pier_breaks(table, question, request)
}

// Where a row's own bytes stand in the table.
#[unsafe(no_mangle)]
pub extern "C" fn pier_entry(table: &[u8], row: u32) -> Located
    ensures { result ≡ entry_answer table.now row }
{
    pierstride::pier_entry(table, row)
}

// The table without a row, over the front of the lent output; a refusal changes no lent byte.
#[unsafe(no_mangle)]
pub extern "C" fn pier_strike(table: &[u8], row: u32, out: &mut [u8]) -> Written
    ensures answer { result ≡ strike_answer table.now row out.old }
    ensures output { out.new ≡ strike_output table.now row out.old }
{
    pierstride::pier_strike(table, row, out)
}

// The suppliers of the rows that a row reaches, itself included, each once, rising, over the front of the lent output; a refusal changes no lent byte.
#[unsafe(no_mangle)]
pub extern "C" fn pier_suppliers(table: &[u8], row: u32, out: &mut [u8]) -> Written
    ensures answer { result ≡ suppliers_answer table.now row out.old }
    ensures output { out.new ≡ suppliers_output table.now row out.old }
{
    pierstride::pier_suppliers(table, row, out)
}

// The negation of a question as a DIMACS CNF file, over the front of the lent output; a refusal changes no lent byte.
#[unsafe(no_mangle)]
pub extern "C" fn pier_dimacs(table: &[u8], question: u32, out: &mut [u8]) -> Written
    ensures answer { result ≡ dimacs_answer table.now question out.old }
    ensures output { out.new ≡ dimacs_output table.now question out.old }
{
    pierstride::pier_dimacs(table, question, out)
}

// The text of a table, over the front of the lent output; a refusal changes no lent byte.
#[unsafe(no_mangle)]
pub extern "C" fn pier_to_text(table: &[u8], out: &mut [u8]) -> Written
    ensures answer { result ≡ to_text_answer table.now out.old }
    ensures output { out.new ≡ to_text_output table.now out.old }
{
    pierstride::pier_to_text(table, out)
}

// The bytes of the table that a text spells, over the front of the lent output; the place of every refusal but 11 is a line's number.
#[unsafe(no_mangle)]
pub extern "C" fn pier_from_text(text: &[u8], out: &mut [u8]) -> Written
    ensures answer { result ≡ from_text_answer text.now out.old }
    ensures output { out.new ≡ from_text_output text.now out.old }
{
    pierstride::pier_from_text(text, out)
}
