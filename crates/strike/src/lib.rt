// Striking a row: the table without it, written into a second lent buffer, or a refusal that changes nothing.
#![tactic(auto)]

ghost use Rattle.std.specs.Prelude.{◌≡◌, cond, ◌++◌, ◌+◌, ◌≤◌, ◌<◌, length, map, take, drop};
ghost use Rattle.entries.specs.Lists.{some};
ghost use Rattle.entries.specs.Said.{said};
ghost use Rattle.table.specs.Steps.{row_limit};
ghost use Rattle.table.specs.Suppliers.{no_supplier, last_of};
ghost use Rattle.table.specs.Contents.{written, encoded};
ghost use Rattle.table.specs.Reading.{reading, contents_in, Full};
ghost use Rattle.strike.specs.Strike.{lower, lowered, without, mark_bytes, names, struck_bytes, in_use, struck_answer, struck_output};
ghost use Rattle.strike.specs.Inner.{left_rows};

use entries::Entry;
use entries::refusals::{Reason, Refusal};
use table::{Table, suppliers as marks};

// A number above r, lowered by one.
#[tactic(auto, unfolding(crate::specs::Strike::lower))]
fn lower_of(r: usize, x: u8) -> u8
    ensures { result ≡ lower r x }
{
    if r < entries::index(x) { x - 1 } else { x }
}

// A number as it stands once row r is struck: lowered where it names a row.
fn lowered_if(row: bool, r: usize, x: u8) -> u8
    ensures { result ≡ cond row (lower r x) x }
{
    if row { lower_of(r, x) } else { x }
}

// An entry as it stands once row r is struck.
fn lowered_of(r: usize, e: Entry) -> Entry
    ensures { result ≡ lowered r e }
{
    Entry {
        kind: e.kind,
        a: lowered_if(entries::names_row(e, 0), r, e.a),
        b: lowered_if(entries::names_row(e, 1), r, e.b),
    }
}

// Whether an entry names row r.
fn names_of(r: usize, e: Entry) -> bool
    ensures { result ≡ names r e }
{
    let first = entries::names_row(e, 0) & (entries::index(e.a) == r);
    let second = entries::names_row(e, 1) & (entries::index(e.b) == r);
    first | second
}

// Whether some one of these entries names row r.
fn any_names(entries: &[Entry], r: usize) -> bool
    ensures { result ≡ some (names r) entries.now }
{
    entries.iter().any(|e| names_of(r, *e))
}

// Whether some row or question names row r.
#[tactic(auto, using(crate::proofs::Taken::in_use_taken))]
fn named(t: &Table, r: usize) -> bool
    requires { Full t.now }
    ensures { result ≡ in_use r (contents_in t.now) }
{
    any_names(&t.rows[..t.tally.rows], r) || any_names(&t.questions[..t.tally.questions], r)
}

// The constraints, over the front of an output that has room for them.
fn keep(constraints: &[Entry], out: &mut [u8]) -> usize
    requires { length (written constraints.now) ≤ length out.old }
    ensures { (result ≡ length (written constraints.now)) × (out.new ≡ written constraints.now ++ drop result out.old) }
{
    let mut end = 0;
    for e in constraints {
        end += entries::put(&mut out[end..], *e);
    }
    end
}

// The rows but for row r, lowered, each behind a 60 where the supplier changes, over the front of an output that has room for them.
fn put_rows(rows: &[Entry], suppliers: &[u8], r: usize, out: &mut [u8]) -> usize
    requires { (length suppliers.now ≡ length rows.now) × (length (written (left_rows r suppliers.now rows.now)) ≤ length out.old) }
    ensures { (result ≡ length (written (left_rows r suppliers.now rows.now))) ×
        (out.new ≡ written (left_rows r suppliers.now rows.now) ++ drop result out.old) }
{
    let mut end = 0;
    let mut force = marks::NONE;
    for (i, e) in rows.iter().enumerate() {
        if i != r {
            let s = suppliers[i];
            end += marks::put(&mut out[end..], force, s, lowered_of(r, *e));
            force = s;
        }
    }
    end
}

// The questions, lowered, over the front of an output that has room for them.
fn put_questions(questions: &[Entry], r: usize, out: &mut [u8]) -> usize
    requires { length (written (map (lowered r) questions.now)) ≤ length out.old }
    ensures { (result ≡ length (written (map (lowered r) questions.now))) × (out.new ≡ written (map (lowered r) questions.now) ++ drop result out.old) }
{
    let mut end = 0;
    for e in questions {
        end += entries::put(&mut out[end..], lowered_of(r, *e));
    }
    end
}

// The entries without row r, each into the unwritten rest of the output: the constraints as they are, and behind them the others, with a 60 where the supplier
// changes.
fn write(t: &Table, r: usize, out: &mut [u8]) -> usize
    requires { Full t.now × (length (struck_bytes r (contents_in t.now)) ≤ length out.old) }
    ensures { (result ≡ length (struck_bytes r (contents_in t.now))) × (out.new ≡ struck_bytes r (contents_in t.now) ++ drop result out.old) }
{
    let used = t.tally.rows;
    let kept = keep(&t.constraints[..t.tally.constraints], out);
    let end = kept + put_rows(&t.rows[..used], &t.suppliers[..used], r, &mut out[kept..]);
    end + put_questions(&t.questions[..t.tally.questions], r, &mut out[end..])
}

// The supplier in force before row r, of rows with these suppliers.
#[tactic(auto, using(crate::proofs::Marks::in_force_behind), unfolding(table::specs::Suppliers::last_of))]
fn in_force_before(owners: &[u8], r: usize) -> u8
    requires { r ≤ length owners.now }
    ensures { result ≡ last_of no_supplier (take r owners.now) }
{
    if r == 0 { marks::NONE } else { owners[r - 1] }
}

// How many bytes of 60s go with row r: its own and that of the row behind it, but for one that this needs then.
fn marks_gone(owners: &[u8], r: usize) -> usize
    requires { r < length owners.now }
    ensures { result + mark_bytes no_supplier (without r owners.now) ≡ mark_bytes no_supplier owners.now }
{
    let own = owners[r];
    let prior = in_force_before(owners, r);
    let first = marks::change_size(prior, own);
    if owners.len() <= r + 1 {
        return first;
    }
    let next = owners[r + 1];
    first + marks::change_size(own, next) - marks::change_size(prior, next)
}

// How many bytes a table of so many bytes has without row r: all but the row's own and the 60s that go with it.
fn length_without(t: &Table, bytes: usize, r: usize) -> usize
    requires { Full t.now × (r < t.now.tally.rows) × (bytes ≡ length (encoded (contents_in t.now))) }
    ensures { result ≡ length (struck_bytes r (contents_in t.now)) }
{
    let marks = marks_gone(&t.suppliers[..t.tally.rows], r);
    bytes - entries::size_of(t.rows[r]) - marks
}

// The table without row `row`, over the front of the output; nothing is written before every refusal is ruled out.
#[tactic(auto, using(crate::proofs::Answering::striking))]
pub fn strike(table: &[u8], row: u32, out: &mut [u8]) -> Result<usize, Refusal>
    ensures answer { said result ≡ struck_answer (reading table.now) row (length out.old) }
    ensures output { out.new ≡ struck_output (reading table.now) row out.old }
{
    let t = table::accept(table)?;
    let r = row as usize;
    if t.tally.rows <= r {
        return Err(Refusal::of(Reason::NotThere));
    }
    if named(&t, r) {
        return Err(Refusal::of(Reason::StillNamed));
    }
    if out.len() < length_without(&t, table.len(), r) {
        return Err(Refusal::of(Reason::OutputTooShort));
    }
    Ok(write(&t, r, out))
}
