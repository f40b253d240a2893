// The negation of a question: its clauses measured, and the file written.

ghost use Rattle.std.specs.Prelude.{◌≤◌, length};
ghost use Rattle.entries.specs.Entries.{number_limit};

use crate::Extent;
use clauses::{Clause, Layout};
use entries::Entry;
use entries::refusals::{Reason, Refusal};

// The parts of a table, of no more entries each than a byte can number, its counts, and the question.
#[derive(Clone, Copy)]
pub struct Negation<'a> {
    pub constraints: &'a [Entry],
    pub rows: &'a [Entry],
    pub questions: &'a [Entry],
    pub layout: Layout,
    pub question: u32,
    pub ghost few: { (length constraints.now ≤ number_limit) × (length rows.now ≤ number_limit) × (length questions.now ≤ number_limit) },
}

impl Negation<'_> {
    ghost use Rattle.std.specs.Prelude.{◌≡◌, ◌+◌};
    ghost use Rattle.entries.specs.Said.{answered};
    ghost use Rattle.entries.specs.Output.{Sends};
    ghost use Rattle.decimal.specs.Put.{Put};
    ghost use Rattle.clauses.specs.Rules.{literals_in};
    ghost use Rattle.clauses.specs.Variables.{false_clause};
    ghost use Rattle.dimacs.specs.Dimacs.{Measures, text_of, file_text};
    ghost use Rattle.dimacs.specs.Negations.{clauses_over};

    // The clause that says that the question is false.
    fn last_clause(&self) -> Clause
        ensures { literals_in result ≡ false_clause self.now.layout self.now.question }
    {
        Clause::One(!clauses::truth_at(self.layout, self.question))
    }

    // How many clauses there are, and how many bytes their lines have.
    fn measure(&self) -> Extent
        ensures { Measures result (clauses_over self.now) × (result.bytes ≤ 1000000) }
    {
        let a = crate::entries_extent(self.constraints, self.layout);
        let b = crate::entries_extent(self.rows, self.layout);
        let c = crate::entries_extent(self.questions, self.layout);
        Extent {
            clauses: a.clauses + b.clauses + c.clauses + 1,
            bytes: a.bytes + b.bytes + c.bytes + crate::clause_size(self.last_clause()),
        }
    }

    // The lines of the clauses, from a place of an output on.
    fn put_clauses(&self, out: &mut [u8], at: usize) -> usize
        requires { at + length (text_of (clauses_over self.now)) ≤ length out.old }
        ensures { Put out.old at (text_of (clauses_over self.now)) result out.new }
    {
        let first = crate::put_entries(out, at, self.constraints, self.layout);
        let second = crate::put_entries(out, first, self.rows, self.layout);
        let third = crate::put_entries(out, second, self.questions, self.layout);
        crate::put_clause(out, third, self.last_clause())
    }

    // The file over the front of the output, where there is room for it.
    pub(crate) fn compose(&self, out: &mut [u8], variables: usize) -> Result<usize, Refusal>
        ensures { Sends (answered (file_text variables (clauses_over self.now))) out.old result out.new }
    {
        let extent = self.measure();
        let size = crate::header_size(variables, extent.clauses) + extent.bytes;
        if out.len() < size {
            return Err(Refusal::of(Reason::OutputTooShort));
        }
        let first = crate::put_header(out, variables, extent.clauses);
        Ok(self.put_clauses(out, first))
    }
}
