// Which decisions remain possible for a row where facts are missing.
#![tactic(auto)]

pub mod sets;
mod tables;

ghost use Rattle.std.specs.Prelude.{◌≡◌, get_or};
ghost use Rattle.std.proofs.Common.{sym, ◌∙◌};
ghost use Rattle.belnap.specs.declared.Decision.TheVariants.{U};
ghost use Rattle.kinds.specs.Kinds.{as_row};
ghost use Rattle.entries.specs.Entries.{equal_numbers};
ghost use Rattle.possible.specs.Sets.{decisions, single, mask, of_mask};
ghost use Rattle.possible.specs.Filled.{filled};
ghost use Rattle.possible.specs.Possible.{fact_set, set_by, set_of, possible_in};

use belnap::Decision;
use decide::Facts;
use decide::rows::Rule;
use entries::Entry;
use kinds::{Kind, RowKind};
use table::Table;

// The set of a predicate row.
#[tactic(auto, unfolding(crate::specs::Possible::fact_set))]
fn fact_set(v: Decision, predicate: u8, facts: Facts) -> u8
    ensures { result ≡ mask decisions (fact_set v predicate facts.known facts.yes) }
{
    if decide::bit_of(facts.known, predicate) {
        if decide::bit_of(facts.yes, predicate) {
            sets::only(v)
        } else {
            sets::only(Decision::U)
        }
    } else {
        sets::perhaps(v)
    }
}

// The set of a row where the rows that it names have the sets s and t, and `equal` says whether their numbers are equal.
#[tactic(auto, unfolding(crate::specs::Possible::set_by))]
fn set_by(kind: RowKind, predicate: u8, equal: bool, facts: Facts, s: u8, t: u8) -> u8
    ensures { result ≡ mask decisions (set_by kind predicate equal facts.known facts.yes (of_mask decisions s) (of_mask decisions t)) }
{
    match kind {
        RowKind::Always(v) => sets::only(v),
        RowKind::DenyIf => fact_set(Decision::D, predicate, facts),
        RowKind::GrantIf => fact_set(Decision::G, predicate, facts),
        RowKind::One(op) => sets::image_one(op, s),
        RowKind::Two(op) => sets::image_two(op, equal, s, t),
    }
}

// The mask at a number of a run of masks; a number past its end reads as 1, which is {u} of decisions and {true} of truths.
pub fn mask_at(masks: &[u8], n: u8) -> u8
    ensures { result ≡ get_or masks.now n 1 }
{
    decide::rows::value_at(masks, n, 1)
}

// What the sets of rows are filled in by: the known facts.
#[derive(Drop)]
struct RowRule {
    facts: Facts,
}

impl Rule<u8> for RowRule {
    type Read = RowKind;

    ghost reads = { as_row };

    ghost answers = { λ by kind e s t v. v ≡ mask decisions
        (set_by kind e.a (equal_numbers e) by.facts.known by.facts.yes (of_mask decisions s) (of_mask decisions t)) };

    ghost one = { λ by kind e s t v w p q. p ∙ sym q };

    fn read(kind: Kind) -> RowKind {
        kinds::as_row(kind)
    }

    fn value(&self, kind: RowKind, e: Entry, s: u8, t: u8) -> u8 {
        set_by(kind, e.a, e.a == e.b, self.facts, s, t)
    }
}

// The sets of rows, each from those before it, into the front of what is lent, as many as there is room for.
pub fn fill_sets(rows: &[Entry], facts: Facts, sets: &mut [u8])
    ensures { sets.new ≡
        filled decisions (set_of facts.known facts.yes) (single U) rows.now sets.old }
{
    decide::rows::fill(rows, &RowRule { facts }, sets::only(Decision::U), sets);
}

// The set of row `row` of a table as a mask; a row that no table has room for reads as always u.
pub fn possible(t: Table, row: usize, facts: Facts) -> u8
    ensures { result ≡ mask decisions (possible_in t.rows facts.known facts.yes row) }
{
    if Table::ROWS <= row {
        return sets::only(Decision::U);
    }
    let mut sets = [0u8; Table::ROWS];
    fill_sets(&t.rows[..row + 1], facts, &mut sets);
    sets[row]
}
