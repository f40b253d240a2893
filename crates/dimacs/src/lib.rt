// A question's negation as a DIMACS CNF file, for a solver (docs/SOLVERS.md).
#![tactic(auto)]

mod negation;

ghost use Rattle.std.specs.Prelude.{◌≡◌, ◌∷◌, [], ◌+◌, ◌≤◌, length};
ghost use Rattle.entries.specs.Said.{said};
ghost use Rattle.entries.specs.Output.{sent, output_of};
ghost use Rattle.table.specs.Reading.{reading};
ghost use Rattle.decimal.specs.Decimal.{zero_digit, line_feed};
ghost use Rattle.decimal.specs.Put.{Put};
ghost use Rattle.clauses.specs.Rules.{clauses_of, literals_in, spelled};
ghost use Rattle.dimacs.specs.Dimacs.{sign, literal_text, clause_text, text_of, opening, header_text, file_of};
ghost use Rattle.dimacs.specs.Dimacs.{Measures, clauses_in, Short};

use crate::negation::Negation;
use clauses::{Clause, Layout, Literal, Rule, Rules};
use entries::Entry;
use entries::refusals::{Reason, Refusal};

// How many clauses there are, and how many bytes they take.
#[derive(Clone, Copy, Debug, PartialEq, Eq)]
pub struct Extent {
    pub clauses: usize,
    pub bytes: usize,
}

// A minus before a variable that is negated.
fn put_sign(out: &mut [u8], at: usize, positive: bool) -> usize
    requires { at + length (sign positive) ≤ length out.old }
    ensures { Put out.old at (sign positive) result out.new }
{
    if positive {
        return at;
    }
    decimal::put_byte(out, at, b'-')
}

// A literal and the space behind it.
fn put_literal(out: &mut [u8], at: usize, l: Literal) -> usize
    requires { at + length (literal_text l) ≤ length out.old }
    ensures { Put out.old at (literal_text l) result out.new }
{
    let first = put_sign(out, at, l.positive);
    let behind = decimal::put_decimal(out, first, l.variable);
    decimal::put_byte(out, behind, decimal::SPACE)
}

// The end of a clause's line.
fn put_end(out: &mut [u8], at: usize) -> usize
    requires { at + 2 ≤ length out.old }
    ensures { Put out.old at (zero_digit ∷ line_feed ∷ []) result out.new }
{
    let next = decimal::put_byte(out, at, b'0');
    decimal::put_byte(out, next, decimal::LINE_FEED)
}

// A clause's line.
fn put_clause(out: &mut [u8], at: usize, clause: Clause) -> usize
    requires { at + length (clause_text (literals_in clause)) ≤ length out.old }
    ensures { Put out.old at (clause_text (literals_in clause)) result out.new }
{
    match clause {
        Clause::One(a) => {
            let behind = put_literal(out, at, a);
            put_end(out, behind)
        }
        Clause::Two(a, b) => {
            let first = put_literal(out, at, a);
            let second = put_literal(out, first, b);
            put_end(out, second)
        }
        Clause::Three(a, b, c) => {
            let first = put_literal(out, at, a);
            let second = put_literal(out, first, b);
            let third = put_literal(out, second, c);
            put_end(out, third)
        }
    }
}

// The lines of a rule's clauses.
fn put_rule(out: &mut [u8], at: usize, rule: Rule) -> usize
    requires { at + length (text_of (clauses_of rule)) ≤ length out.old }
    ensures { Put out.old at (text_of (clauses_of rule)) result out.new }
{
    let mut next = at;
    for i in 0..clauses::clause_count(rule) {
        if let Some(clause) = clauses::clause_of(rule, i) {
            next = put_clause(out, next, clause);
        }
    }
    next
}

// The lines of an entry's clauses.
fn put_rules(out: &mut [u8], at: usize, rules: Rules) -> usize
    requires { at + length (text_of (spelled rules)) ≤ length out.old }
    ensures { Put out.old at (text_of (spelled rules)) result out.new }
{
    match rules {
        Rules::None => at,
        Rules::One(rule) => put_rule(out, at, rule),
        Rules::Two(first, second) => {
            let next = put_rule(out, at, first);
            put_rule(out, next, second)
        }
    }
}

// The lines of the clauses of entries, numbered from 0.
fn put_entries(out: &mut [u8], at: usize, entries: &[Entry], layout: Layout) -> usize
    requires { Short entries.now × (at + length (text_of (clauses_in layout entries.now)) ≤ length out.old) }
    ensures { Put out.old at (text_of (clauses_in layout entries.now)) result out.new }
{
    let mut next = at;
    for (i, e) in entries.iter().enumerate() {
        let rules = clauses::rules_of(layout, i as u32, *e);
        next = put_rules(out, next, rules);
    }
    next
}

// How many bytes a literal takes with the space behind it. Each function that writes has one that measures: nothing is written before every refusal is ruled
// out, and there is no heap to write into meanwhile.
#[tactic(auto, unfolding(crate::specs::Dimacs::literal_text))]
fn literal_size(l: Literal) -> usize
    ensures { (result ≡ length (literal_text l)) × (result ≤ 22) }
{
    let digits = decimal::decimal_size(l.variable);
    if l.positive { digits + 1 } else { digits + 2 }
}

// How many bytes a clause's line has.
fn clause_size(clause: Clause) -> usize
    ensures { (result ≡ length (clause_text (literals_in clause))) × (result ≤ 68) }
{
    match clause {
        Clause::One(a) => literal_size(a) + 2,
        Clause::Two(a, b) => literal_size(a) + literal_size(b) + 2,
        Clause::Three(a, b, c) => literal_size(a) + literal_size(b) + literal_size(c) + 2,
    }
}

// How many bytes the lines of a rule's clauses have.
fn rule_size(rule: Rule) -> usize
    ensures { (result ≡ length (text_of (clauses_of rule))) × (result ≤ 408) }
{
    let mut size = 0;
    for i in 0..clauses::clause_count(rule) {
        if let Some(clause) = clauses::clause_of(rule, i) {
            size += clause_size(clause);
        }
    }
    size
}

// How many clauses an entry has, and how many bytes their lines.
fn rules_extent(rules: Rules) -> Extent
    ensures { Measures result (spelled rules) × (result.clauses ≤ 12) × (result.bytes ≤ 816) }
{
    match rules {
        Rules::None => Extent {
            clauses: 0,
            bytes: 0,
        },
        Rules::One(rule) => Extent {
            clauses: clauses::clause_count(rule),
            bytes: rule_size(rule),
        },
        Rules::Two(first, second) => Extent {
            clauses: clauses::clause_count(first) + clauses::clause_count(second),
            bytes: rule_size(first) + rule_size(second),
        },
    }
}

// How many clauses entries numbered from 0 have, and how many bytes their lines.
fn entries_extent(entries: &[Entry], layout: Layout) -> Extent
    requires { Short entries.now }
    ensures { Measures result (clauses_in layout entries.now) × (result.clauses ≤ 3072) × (result.bytes ≤ 208896) }
{
    let mut total = Extent {
        clauses: 0,
        bytes: 0,
    };
    for (i, e) in entries.iter().enumerate() {
        let rules = clauses::rules_of(layout, i as u32, *e);
        let extent = rules_extent(rules);
        total.clauses += extent.clauses;
        total.bytes += extent.bytes;
    }
    total
}

// How the file begins.
const OPENING: [u8; 6] = *b"p cnf ";

fn put_opening(out: &mut [u8]) -> usize
    requires { length opening ≤ length out.old }
    ensures { Put out.old 0 opening result out.new }
{
    out[..OPENING.len()].copy_from_slice(&OPENING);
    OPENING.len()
}

// The file's first line.
fn put_header(out: &mut [u8], variables: usize, clauses: usize) -> usize
    requires { length (header_text variables clauses) ≤ length out.old }
    ensures { Put out.old 0 (header_text variables clauses) result out.new }
{
    let first = put_opening(out);
    let second = decimal::put_decimal(out, first, variables);
    let third = decimal::put_byte(out, second, decimal::SPACE);
    let fourth = decimal::put_decimal(out, third, clauses);
    decimal::put_byte(out, fourth, decimal::LINE_FEED)
}

#[tactic(auto, unfolding(crate::specs::Dimacs::header_text))]
fn header_size(variables: usize, clauses: usize) -> usize
    ensures { (result ≡ length (header_text variables clauses)) × (result ≤ 48) }
{
    decimal::decimal_size(variables) + decimal::decimal_size(clauses) + 8
}

// The negation of question `question` of a table as a DIMACS CNF file, over the front of the output; nothing is written before every refusal is ruled out.
#[tactic(auto, using(crate::proofs::Parts::read_fits))]
pub fn file(table: &[u8], question: u32, out: &mut [u8]) -> Result<usize, Refusal>
    ensures answer { said result ≡ sent (file_of (reading table.now) question) (length out.old) }
    ensures output { out.new ≡ output_of (file_of (reading table.now) question) out.old }
{
    let t = table::accept(table)?;
    let rows = t.tally.rows;
    let questions = t.tally.questions;
    if questions <= question as usize {
        return Err(Refusal::of(Reason::NotThere));
    }
    let negation = Negation {
        constraints: &t.constraints[..t.tally.constraints],
        rows: &t.rows[..rows],
        questions: &t.questions[..questions],
        layout: Layout {
            predicates: t.predicates as u32,
            rows: rows as u32,
        },
        question,
    };
    negation.compose(out, t.predicates + 2 * rows + questions)
}
