// The table: its type and limits, and reading it from bytes.
#![tactic(auto)]

pub mod steps;
pub mod suppliers;

ghost use Rattle.std.specs.Prelude.{◌≡◌, Err};
ghost use Rattle.entries.specs.Said.{said};
ghost use Rattle.table.specs.Contents.{none};
ghost use Rattle.table.specs.Reading.{reading, table_of, outcome_of, or_none, tabled};

use crate::steps::Tally;
use belnap::Decision;
use entries::Entry;
use entries::refusals::Refusal;
use kinds::{Kind, RowKind};

// A table just read: its constraints, rows and questions in order, a supplier a row, how many there are of each, and 01's n. Arrays with their counts
// beside: a table stands in fixed memory and goes by value, as the desk asks (docs/DECISIONS.md, "Required forms by place"). Any struct may be handed to
// `decide`, `possible` and `walk`, so that it counts no more than it has room for is no invariant of the type, but asked where a part of it is lent (`Full`).
// A row's supplier stands beside the rows and not in each entry, since deciding and walking go over entries and need none. A table is not printed or compared.
#[derive(Clone, Copy)]
pub struct Table {
    pub constraints: [Entry; Table::CONSTRAINTS],
    pub rows: [Entry; Table::ROWS],
    pub suppliers: [u8; Table::ROWS],
    pub questions: [Entry; Table::QUESTIONS],
    pub tally: Tally,
    pub predicates: usize,
}

// A table with what reading came to beside it: it was read, or it is empty beside the refusal. The form that the desk asks for (docs/DECISIONS.md,
// "Required forms by place"); `accept` gives a `Result` of the table.
#[derive(Clone, Copy)]
pub struct Reading {
    pub table: Table,
    pub outcome: Result<(), Refusal>,
}

impl Table {
    pub const PREDICATES: usize = 24;

    pub const ROWS: usize = 256;

    pub const QUESTIONS: usize = 64;

    pub const CONSTRAINTS: usize = 32;

    #[tactic(auto, unfolding(crate::specs::Reading::table_of, crate::specs::Contents::highest))]
    pub fn empty() -> Self
        ensures { result ≡ table_of none }
    {
        let blank = Entry {
            kind: Kind::Row(RowKind::Always(Decision::U)),
            a: 0,
            b: 0,
        };
        Table {
            constraints: [blank; Table::CONSTRAINTS],
            rows: [blank; Table::ROWS],
            suppliers: [suppliers::NONE; Table::ROWS],
            questions: [blank; Table::QUESTIONS],
            tally: Tally {
                constraints: 0,
                rows: 0,
                questions: 0,
            },
            predicates: 0,
        }
    }
}

// Beside a refusal the table is empty.
fn refused(why: Refusal) -> Reading
    ensures table { result.table ≡ table_of none }
    ensures outcome { result.outcome ≡ Err why }
{
    Reading {
        table: Table::empty(),
        outcome: Err(why),
    }
}

// Any bytes: the table, or the first refusal.
pub fn read(s: &[u8]) -> Reading
    ensures table { result.table ≡ table_of (or_none (reading s.now)) }
    ensures outcome { said result.outcome ≡ outcome_of (reading s.now) }
{
    let mut t = Table::empty();
    let mut force = suppliers::NONE;
    let mut at = 0;
    // a `while`, since an entry's size says where the next begins
    while at < s.len() {
        let before = t.tally;
        match steps::step_at(s, at, force, before) {
            Ok(e) => {
                match e.kind {
                    Kind::Row(_) => {
                        t.rows[before.rows] = e;
                        t.suppliers[before.rows] = force;
                    }
                    Kind::Question(_) => {
                        t.questions[before.questions] = e;
                    }
                    Kind::Constraint(_) => {
                        t.constraints[before.constraints] = e;
                    }
                    Kind::Supplier => {
                        force = e.a;
                    }
                }
                t.predicates = t.predicates.max(entries::uses_of(e));
                t.tally = steps::one_more(e.kind, before);
                at += entries::size_of(e);
            }
            Err(why) => {
                return refused(Refusal {
                    reason: why.reason,
                    place: at + why.place,
                });
            }
        }
    }
    Reading {
        table: t,
        outcome: Ok(()),
    }
}

// The table that any bytes are, or the first refusal, unchanged.
#[inline(always)]
pub fn accept(s: &[u8]) -> Result<Table, Refusal>
    ensures { said result ≡ tabled (reading s.now) }
{
    let got = read(s);
    let Err(why) = got.outcome else {
        return Ok(got.table);
    };
    Err(why)
}
