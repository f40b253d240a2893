// The suppliers of the rows that a row reaches.
#![tactic(auto)]

ghost use Rattle.std.specs.Prelude.{◌≡◌, ◌++◌, ◌≤◌, ◌<◌, length, drop};
ghost use Rattle.entries.specs.Entries.{number_limit};
ghost use Rattle.table.specs.Steps.{row_limit};
ghost use Rattle.decide.specs.Reach.{reaches_row, NameLower, passing};
ghost use Rattle.entries.specs.Said.{said};
ghost use Rattle.entries.specs.Output.{sent, output_of};
ghost use Rattle.table.specs.Reading.{reading};
ghost use Rattle.suppliers.specs.Suppliers.{has, supplies, list_of, flag, Shows};

use entries::refusals::{Reason, Refusal};
use table::Table;

// The rows that a row reaches: from it downwards, each row that is marked marks those that it names.
fn reach(t: &Table, row: usize) -> [bool; Table::ROWS]
    requires { NameLower t.now.rows × (row < row_limit) }
    ensures { Shows result (reaches_row t.now.rows row) }
{
    let mut marks = [false; Table::ROWS];
    marks[row] = true;
    for i in (0..=row).rev() {
        let e = t.rows[i];
        let on = marks[i];
        marks[entries::index(e.a)] |= on & entries::names_row(e, 0);
        marks[entries::index(e.b)] |= on & entries::names_row(e, 1);
    }
    marks
}

// The suppliers of the marked rows below a number.
#[tactic(auto, using(std::proofs::lemmas::Slice::Zip::zip_end))]
fn flagged(
    marks: &[bool; Table::ROWS],
    suppliers: &[u8; Table::ROWS],
    end: usize,
) -> [bool; entries::NUMBERS]
    requires { end ≤ row_limit }
    ensures { Shows result (has suppliers.now (passing end (flag marks.now))) }
{
    let mut flags = [false; entries::NUMBERS];
    for (s, on) in suppliers[..end].iter().zip(marks) {
        flags[entries::index(*s)] |= *on;
    }
    flags
}

// The suppliers of the rows that a row reaches, as flags.
fn supplied(t: &Table, row: usize) -> [bool; entries::NUMBERS]
    requires { NameLower t.now.rows × (row < row_limit) }
    ensures { Shows result (supplies t.now.rows t.now.suppliers row) }
{
    let marks = reach(t, row);
    flagged(&marks, &t.suppliers, row + 1)
}

// How many flags are set.
#[tactic(auto, using(crate::proofs::Listing::passing_counted))]
fn count(flags: &[bool; entries::NUMBERS]) -> usize
    ensures { result ≡ length (passing number_limit (flag flags.now)) }
{
    flags.iter().filter(|on| **on).count()
}

// The numbers of the flags that are set, rising, over the front of an output that has room for them.
fn put(flags: &[bool; entries::NUMBERS], out: &mut [u8]) -> usize
    requires { length (passing number_limit (flag flags.now)) ≤ length out.old }
    ensures { (result ≡ length (passing number_limit (flag flags.now))) ×
        (out.new ≡ passing number_limit (flag flags.now) ++ drop result out.old) }
{
    let mut n = 0;
    for (s, on) in flags.iter().enumerate() {
        if *on {
            out[n] = s as u8;
            n += 1;
        }
    }
    n
}

// The suppliers of all rows that row `row` of a table reaches, itself included, each once, rising, over the front of the output; nothing is written before
// every refusal is ruled out.
#[tactic(auto, using(crate::proofs::Laws::sending), unfolding(entries::specs::Output::output_of, entries::specs::Entries::onto))]
pub fn suppliers(table: &[u8], row: u32, out: &mut [u8]) -> Result<usize, Refusal>
    ensures answer { said result ≡ sent (list_of (reading table.now) row) (length out.old) }
    ensures output { out.new ≡ output_of (list_of (reading table.now) row) out.old }
{
    let t = table::accept(table)?;
    let r = row as usize;
    if t.tally.rows <= r {
        return Err(Refusal::of(Reason::NotThere));
    }
    let flags = supplied(&t, r);
    if out.len() < count(&flags) {
        return Err(Refusal::of(Reason::OutputTooShort));
    }
    Ok(put(&flags, out))
}
