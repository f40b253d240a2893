// One entry: its bytes, what it uses and names, and the entry written into the front of a lent output. The refusals stand in the module below.
#![tactic(auto)]

pub mod refusals;

ghost use Rattle.std.specs.Prelude.{◌≡◌, cond, ltb, ◌≤◌, ◌<◌};
ghost use Rattle.entries.specs.Entries.{number_limit, size_limit, body_size, size_of, used_by, uses, bytes_of, onto};
ghost use Rattle.entries.specs.Renaming.{names_row};

use kinds::{Form, Kind, Names};

// A row, a question, a constraint or a supplier: its kind, and its numbers; 0 for one that its kind has not.
#[derive(Clone, Copy, Debug, PartialEq, Eq)]
pub struct Entry {
    pub kind: Kind,
    pub a: u8,
    pub b: u8,
}

// How many bytes an entry has at most.
pub const LONGEST: usize = 3;

// How many numbers one byte can be.
pub const NUMBERS: usize = 256;

// A number as an index, with the bound that a body's byte has.
pub fn index(x: u8) -> usize
    ensures { (result ≡ x) × (result < number_limit) }
{
    x as usize
}

// How many bytes of a body belong to an entry of a kind: one for each number.
pub fn body_size(kind: Kind) -> usize
    ensures { (result ≡ body_size kind) × (result < size_limit) }
{
    kinds::form_of(kind).numbers
}

// How many bytes an entry has.
#[tactic(auto, using(crate::proofs::OneEntry::size))]
pub fn size_of(e: Entry) -> usize
    ensures { (result ≡ size_of e) × (result ≤ size_limit) }
{
    body_size(e.kind) + 1
}

// One more than the predicate that number i of a body is; 0 if it is not there or names none.
fn used_at(form: Form, i: usize, x: u8) -> usize
    ensures { (result ≡ cond (ltb i form.numbers) (used_by form.names x) 0) × (result ≤ number_limit) }
{
    if form.numbers <= i {
        return 0;
    }
    let predicate = index(x);
    match form.names {
        Names::Nothing => 0,
        Names::Predicates => predicate + 1,
        Names::Rows => 0,
        Names::Questions => 0,
        Names::Suppliers => 0,
    }
}

// One more than the highest predicate that an entry uses; 0 if it uses none.
pub fn uses_of(e: Entry) -> usize
    ensures { (result ≡ uses e) × (result ≤ number_limit) }
{
    let form = kinds::form_of(e.kind);
    used_at(form, 0, e.a).max(used_at(form, 1, e.b))
}

// Whether number i of an entry is there and names a row.
pub fn names_row(e: Entry, i: usize) -> bool
    ensures { result ≡ names_row i e }
{
    let form = kinds::form_of(e.kind);
    (form.names == Names::Rows) & (i < form.numbers)
}

// An entry's bytes, written onto the front of a lent output where they fit; their number comes back either way.
pub fn put(out: &mut [u8], e: Entry) -> usize
    ensures { (result ≡ size_of e) × (out.new ≡ onto (bytes_of e) out.old) }
{
    let form = kinds::form_of(e.kind);
    let numbers = form.numbers;
    if out.len() <= numbers {
        return numbers + 1;
    }
    out[0] = form.byte;
    if 0 < numbers {
        out[1] = e.a;
    }
    if 1 < numbers {
        out[2] = e.b;
    }
    numbers + 1
}
