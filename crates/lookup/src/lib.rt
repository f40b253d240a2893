// One row out of a table's bytes: where it stands, the row's own part of the slice, and why there is none.
#![tactic(auto)]

ghost use Rattle.std.specs.Prelude.{◌≡◌, ◌+◌, ◌*◌, ◌≤◌, ◌<◌, length};
ghost use Rattle.entries.specs.Entries.{size_limit, supplier_size};
ghost use Rattle.entries.specs.Said.{said, told_or_none, why_of};
ghost use Rattle.table.specs.Steps.{row_limit};
ghost use Rattle.table.specs.Reading.{reading};
ghost use Rattle.lookup.specs.Lookup.{bytes_before, place_of, start_at, part_at};

use entries::refusals::{Reason, Refusal};
use kinds::{ConstraintKind, Kind};
use table::{Table, suppliers};

// Where a part of a table starts, and how many bytes it has: the two numbers of C's answer, which a range would have to be turned into.
#[derive(Clone, Copy, Debug, PartialEq, Eq)]
pub struct Part {
    pub start: usize,
    pub length: usize,
}

// How many bytes the rows before a row have, with their 60s, and its own.
#[tactic(auto, using(crate::proofs::RowPart::row_bytes, std::proofs::lemmas::Slice::Zip::zip_end))]
fn bytes_before(t: &Table, row: usize) -> usize
    requires { (row < row_limit) × (length t.now.rows ≡ row_limit) × (length t.now.suppliers ≡ row_limit) }
    ensures { (result ≡ bytes_before t.now.suppliers t.now.rows row) × (result ≤ (size_limit + supplier_size) * row_limit) }
{
    let mut start = 0;
    let mut force = suppliers::NONE;
    for (e, s) in t.rows[..row].iter().zip(&t.suppliers) {
        start += suppliers::change_size(force, *s) + entries::size_of(*e);
        force = *s;
    }
    start + suppliers::change_size(force, t.suppliers[row])
}

// Where row `row` of a table stands, from the table's bytes on.
#[tactic(auto, using(crate::proofs::RowPart::found, crate::proofs::RowPart::not_found))]
pub fn find(table: &[u8], row: u32) -> Result<Part, Refusal>
    ensures { said result ≡ place_of (reading table.now) row }
{
    let t = table::accept(table)?;
    let at = row as usize;
    if t.tally.rows <= at {
        return Err(Refusal::of(Reason::NotThere));
    }
    // constraints have one size
    let size = entries::body_size(Kind::Constraint(ConstraintKind::NeverBoth)) + 1;
    let start = size * t.tally.constraints + bytes_before(&t, at);
    let length = entries::size_of(t.rows[at]);
    Ok(Part { start, length })
}

// The row's own bytes, as a part of the table that starts at the row's kind byte; an empty part where there is none.
#[tactic(auto, using(crate::proofs::RowPart::inside))]
pub fn entry(table: &[u8], row: u32) -> &[u8]
    ensures part { result.now ≡ part_at (place_of (reading table.now) row) table.now }
    ensures place { (result.ref_ptr.0 ≡ table.entry.ref_ptr.0) ×
        (result.ref_ptr.1 ≡ table.entry.ref_ptr.1 + start_at (place_of (reading table.now) row)) }
{
    match find(table, row) {
        Ok(part) => &table[part.start..part.start + part.length],
        Err(_) => &table[..0],
    }
}

// Why `entry` on the same table and number gives an empty part; none where it does not.
pub fn entry_refusal(table: &[u8], row: u32) -> Option<Refusal>
    ensures { told_or_none result ≡ why_of (place_of (reading table.now) row) }
{
    find(table, row).err()
}
