// The text of a table, one line an entry, that a survey office can read and send back; and the table that a text spells.
#![tactic(auto)]

pub mod lines;

ghost use Rattle.std.specs.Prelude.{◌≡◌, ◌++◌, ◌+◌, ◌*◌, ◌≤◌, length, drop, MatchResult};
ghost use Rattle.std.specs.Option.{option_map};
ghost use Rattle.decimal.specs.Put.{Put};
ghost use Rattle.entries.specs.Refusals.{number_of};
ghost use Rattle.entries.specs.Said.{refusing, refusal, told, said};
ghost use Rattle.entries.specs.Output.{sent, output_of};
ghost use Rattle.table.specs.Steps.{row_limit, placed};
ghost use Rattle.table.specs.Suppliers.{no_supplier, marked};
ghost use Rattle.table.specs.Reading.{Full, held};
ghost use Rattle.text.specs.Lines.{text_of};
ghost use Rattle.text.specs.Calls.{to_text, from_text};
ghost use Rattle.text.specs.Inner.{row_spelled, bad_from, own_unless, Gathers};

use entries::Entry;
use entries::refusals::{Reason, Refusal};
use kinds::Kind;
use table::steps::Tally;
use table::{Table, steps, suppliers};

// How many bytes the lines of entries have that have no suppliers: of constraints, or of questions. Each function that writes has one that measures, here and
// in the module below: nothing is written before every refusal is ruled out, and there is no heap to write into meanwhile.
fn plain_size(entries: &[Entry]) -> usize
    requires { length entries.now ≤ row_limit }
    ensures { (result ≡ length (text_of entries.now)) × (result ≤ 30 * length entries.now) }
{
    let mut size = 0;
    for e in entries {
        size += lines::line_size(*e);
    }
    size
}

// How many bytes the lines of rows have, with those of their suppliers.
#[tactic(auto, using(std::proofs::lemmas::Slice::Zip::zip_end))]
fn rows_size(rows: &[Entry], suppliers: &[u8]) -> usize
    requires { (length suppliers.now ≡ length rows.now) × (length rows.now ≤ row_limit) }
    ensures { (result ≡ length (text_of (marked no_supplier suppliers.now rows.now))) × (result ≤ 60 * length rows.now) }
{
    let mut size = 0;
    let mut force = suppliers::NONE;
    for (e, s) in rows.iter().zip(suppliers) {
        size += lines::lines_size(force, *s, *e);
        force = *s;
    }
    size
}

// How many bytes a table's text has.
fn text_size(t: &Table) -> usize
    requires { Full t.now }
    ensures { result ≡ length (text_of (held t.now)) }
{
    let bound = t.tally.constraints;
    let used = t.tally.rows;
    let asked = t.tally.questions;
    plain_size(&t.constraints[..bound])
        + rows_size(&t.rows[..used], &t.suppliers[..used])
        + plain_size(&t.questions[..asked])
}

// The lines of entries that have no suppliers, from a place of an output on.
fn put_plain(out: &mut [u8], at: usize, entries: &[Entry]) -> usize
    requires { at + length (text_of entries.now) ≤ length out.old }
    ensures { Put out.old at (text_of entries.now) result out.new }
{
    let mut next = at;
    for e in entries {
        next = lines::put_line(out, next, *e);
    }
    next
}

// The lines of rows, with those of their suppliers.
#[tactic(auto, using(std::proofs::lemmas::Slice::Zip::zip_end))]
fn put_rows(out: &mut [u8], at: usize, rows: &[Entry], suppliers: &[u8]) -> usize
    requires fit { length suppliers.now ≡ length rows.now }
    requires room { at + length (text_of (marked no_supplier suppliers.now rows.now)) ≤ length out.old }
    ensures { Put out.old at (text_of (marked no_supplier suppliers.now rows.now)) result out.new }
{
    let mut next = at;
    let mut force = suppliers::NONE;
    for (e, s) in rows.iter().zip(suppliers) {
        next = lines::put_lines(out, next, force, *s, *e);
        force = *s;
    }
    next
}

// A table's text, over the front of an output that has room for it.
fn write(t: &Table, out: &mut [u8]) -> usize
    requires { Full t.now × (length (text_of (held t.now)) ≤ length out.old) }
    ensures length { result ≡ length (text_of (held t.now)) }
    ensures output { out.new ≡ text_of (held t.now) ++ drop result out.old }
{
    let bound = t.tally.constraints;
    let used = t.tally.rows;
    let asked = t.tally.questions;
    let rows = put_plain(out, 0, &t.constraints[..bound]);
    let questions = put_rows(out, rows, &t.rows[..used], &t.suppliers[..used]);
    put_plain(out, questions, &t.questions[..asked])
}

// The text of a table, over the front of the output; nothing is written before every refusal is ruled out.
pub fn to_text(table: &[u8], out: &mut [u8]) -> Result<usize, Refusal>
    ensures answer { said result ≡ sent (to_text table.now) (length out.old) }
    ensures output { out.new ≡ output_of (to_text table.now) out.old }
{
    let t = table::accept(table)?;
    if out.len() < text_size(&t) {
        return Err(Refusal::of(Reason::OutputTooShort));
    }
    Ok(write(&t, out))
}

// No table has more bytes, with a supplier that waits for its row.
const BYTES: usize = entries::LONGEST * (Table::CONSTRAINTS + (Table::ROWS + Table::QUESTIONS))
    + suppliers::SIZE * (Table::ROWS + 1);

// The bytes of the table that a text spells: the first so many of an array with room for the most, fixed memory and no heap.
#[derive(Clone, Copy)]
pub struct Gathered {
    pub bytes: [u8; BYTES],
    pub length: usize,
}

// The refusal of the first line that is spelled badly, from a place on, where a line with this number begins; none where every line is spelled well.
fn bad_line(text: &[u8], from: usize, first: usize) -> Option<Refusal>
    requires { (from ≤ length text.now) × (first ≤ from + 1) }
    ensures { option_map told result ≡ bad_from first (drop from text.now) }
{
    let mut at = from;
    let mut line = first;
    // no step of one: the place goes on by the line that was read
    while at < text.len() {
        let found = lines::line_at(text, at);
        if let Err(why) = found.said {
            return Some(on_line(why, line));
        }
        at = found.next;
        line += 1;
    }
    None
}

// A refusal at a line.
fn on_line(why: Refusal, line: usize) -> Refusal
    ensures { told result ≡ refusal (number_of why.reason) line }
{
    Refusal {
        reason: why.reason,
        place: line,
    }
}

// 01's own refusal of an entry at a line, unless a line from a place on is misspelt.
fn own_unless(why: Refusal, line: usize, text: &[u8], next: usize) -> Refusal
    requires { (next ≤ length text.now) × (line ≤ next) }
    ensures { told result ≡ own_unless (refusal (number_of why.reason) line) (bad_from (line + 1) (drop next text.now)) }
{
    bad_line(text, next, line + 1).unwrap_or(on_line(why, line))
}

// Whether an entry behind a supplier in force is no idle supplier; the next line would begin at a place. Of a table's bytes `steps` says the same: what follows
// is looked for in another way, and only behind a 60.
#[tactic(auto, unfolding(table::specs::Steps::placed))]
fn placed_line(e: Entry, force: u8, text: &[u8], next: usize) -> bool
    requires { next ≤ length text.now }
    ensures { result ≡ placed e force (row_spelled (drop next text.now)) }
{
    match e.kind {
        Kind::Row(_) => true,
        Kind::Question(_) => true,
        Kind::Constraint(_) => true,
        Kind::Supplier => (e.a != force) & lines::row_line(text, next),
    }
}

// The bytes of the entries that a text spells, one after the other; an entry that may not stand where it does waits for a misspelt line behind it.
fn gather(text: &[u8]) -> Result<Gathered, Refusal>
    ensures { MatchResult result (Gathers (from_text text.now)) (λ why. from_text text.now ≡ refusing (told why)) }
{
    let mut bytes = [0; BYTES];
    let mut length = 0;
    let mut tally = Tally {
        constraints: 0,
        rows: 0,
        questions: 0,
    };
    let mut force = suppliers::NONE;
    let mut line = 1;
    let mut at = 0;
    // no step of one: the place goes on by the line that was read
    while at < text.len() {
        let found = lines::line_at(text, at);
        match found.said {
            Ok(e) => {
                let well = placed_line(e, force, text, found.next);
                match steps::enter(e, well, tally) {
                    Ok(more) => {
                        tally = more;
                        force = suppliers::behind(e, force);
                        length += entries::put(&mut bytes[length..], e);
                    }
                    Err(why) => {
                        return Err(own_unless(why, line, text, found.next));
                    }
                }
            }
            Err(why) => {
                return Err(on_line(why, line));
            }
        }
        at = found.next;
        line += 1;
    }
    Ok(Gathered { bytes, length })
}

// The bytes of the table that a text spells, over the front of the output; nothing is written before every refusal is ruled out.
pub fn from_text(text: &[u8], out: &mut [u8]) -> Result<usize, Refusal>
    ensures answer { said result ≡ sent (from_text text.now) (length out.old) }
    ensures output { out.new ≡ output_of (from_text text.now) out.old }
{
    let got = gather(text)?;
    let n = got.length;
    if out.len() < n {
        return Err(Refusal::of(Reason::OutputTooShort));
    }
    out[..n].copy_from_slice(&got.bytes[..n]);
    Ok(n)
}
