// What a row decides at a complete request.
#![tactic(auto)]

pub mod rows;

ghost use Rattle.std.specs.Prelude.{◌≡◌, ◌≤◌, ◌&&◌};
ghost use Rattle.belnap.specs.declared.Decision.TheVariants.{U};
ghost use Rattle.table.specs.Steps.{row_limit};
ghost use Rattle.table.specs.Reading.{padded};
ghost use Rattle.decide.specs.Rows.{values};
ghost use Rattle.decide.specs.Meaning.{bit, decide_by, decides, decision_in};

use belnap::Decision;
use kinds::RowKind;
use table::Table;

// A predicate's bit of a mask.
#[tactic(auto, unfolding(crate::specs::Meaning::bit))]
pub fn bit_of(mask: u32, predicate: u8) -> bool
    ensures { result ≡ bit mask predicate }
{
    if 32 <= predicate {
        return false;
    }
    (mask >> predicate) % 2 == 1
}

// Known facts: which predicates are known, and which of these are yes, as masks.
#[derive(Clone, Copy, Debug, PartialEq, Eq)]
pub struct Facts {
    pub known: u32,
    pub yes: u32,
}

impl Facts {
    // Whether a predicate is known to be yes.
    pub fn known_yes(self, predicate: u8) -> bool
        ensures { result ≡ (bit self.known predicate && bit self.yes predicate) }
    {
        bit_of(self.known, predicate) & bit_of(self.yes, predicate)
    }
}

// What a row decides where the rows that it names decide x and y.
#[tactic(auto, unfolding(crate::specs::Meaning::decide_by))]
fn decide_by(kind: RowKind, predicate: u8, request: u32, x: Decision, y: Decision) -> Decision
    ensures { result ≡ decide_by kind predicate request x y }
{
    match kind {
        RowKind::Always(v) => v,
        RowKind::DenyIf => if bit_of(request, predicate) {
            Decision::D
        } else {
            Decision::U
        },
        RowKind::GrantIf => if bit_of(request, predicate) {
            Decision::G
        } else {
            Decision::U
        },
        RowKind::One(op) => operators::apply_one(op, x),
        RowKind::Two(op) => operators::apply_two(op, x, y),
    }
}

// The decisions of the rows below a number, each from those before it. A place not yet filled reads u.
fn decide_below(t: Table, end: usize, request: u32) -> [Decision; Table::ROWS]
    requires { end ≤ row_limit }
    ensures { result ≡ padded U row_limit (values (decides request) U t.rows end) }
{
    let mut d = [Decision::U; Table::ROWS];
    // Not by `rows::fill`: every number has a place in the array, so nothing is compared here, and this loop takes two thirds of the time.
    for (i, e) in t.rows[..end].iter().enumerate() {
        let kind = kinds::as_row(e.kind);
        let x = d[entries::index(e.a)];
        let y = d[entries::index(e.b)];
        d[i] = decide_by(kind, e.a, request, x, y);
    }
    d
}

// What row `row` of a table decides at a request, given as its yes mask; a row that no table has room for reads u.
#[tactic(auto, using(crate::proofs::RowByRow::before_there, table::proofs::Padding::padded_at))]
pub fn decide(t: Table, row: usize, request: u32) -> Decision
    ensures { result ≡ decision_in t.rows request row }
{
    if Table::ROWS <= row {
        return Decision::U;
    }
    let d = decide_below(t, row + 1, request);
    d[row]
}
