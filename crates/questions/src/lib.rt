// A question's set of true and false, from the sets of rows, and how many rows it looks at.
// A set of truths is a mask in which true counts 1 and false 2, as one of decisions is a mask (possible::sets).
#![tactic(auto)]

mod tables;

ghost use Rattle.std.specs.Prelude.{ℕ, true, false, not, ◌&&◌, ◌≡◌, ◌≤◌, ◌*◌, ◌/◌, ◌%◌, ◌^◌, get_or, max};
ghost use Rattle.std.proofs.Common.{sym, ◌∙◌};
ghost use Rattle.belnap.specs.Orders.{at_or_below};
ghost use Rattle.kinds.specs.Kinds.{as_question};
ghost use Rattle.entries.specs.Entries.{number_limit, equal_numbers};
ghost use Rattle.possible.specs.Sets.{decisions, truths, single, image_one, image_two, mask, of_mask};
ghost use Rattle.possible.specs.Filled.{filled};
ghost use Rattle.questions.specs.Questions.{truth_set_by, asks_set};
ghost use Rattle.questions.specs.Inner.{top_by, top_in, set_at};

use belnap::orders::Order;
use decide::rows::Rule;
use entries::Entry;
use kinds::{Kind, QuestionKind};

// A comparison's outcomes as sixteen words: digit n of word m is for the sets with masks m and n, a choice from each by itself.
fn table_of(order: Order) -> &'static [u64; 16]
    ensures { (m n : ℕ) → get_or result.now (m % 16) 0 / 2 ^ (4 * (n % 16)) % 16
        ≡ mask truths (image_two (at_or_below order) false (of_mask decisions m) (of_mask decisions n)) }
{
    match order {
        Order::Truth => &tables::TRUTH_ORDER,
        Order::Knowledge => &tables::KNOWLEDGE_ORDER,
    }
}

// Every outcome of a comparison over every choice from two sets of decisions; where the numbers of both rows are equal, one choice serves both.
fn compare_set(order: Order, equal: bool, s: u8, t: u8) -> u8
    ensures { result ≡ mask truths (image_two (at_or_below order) equal (of_mask decisions s) (of_mask decisions t)) }
{
    if equal {
        return possible::sets::digit(tables::ORDER_OF_ITSELF, t);
    }
    possible::sets::digit(table_of(order)[usize::from(s % 16)], t)
}

// "Not" over a set of truths.
fn not_set(x: u8) -> u8
    ensures { result ≡ mask truths (image_one not (of_mask truths x)) }
{
    possible::sets::digit(tables::NOT, x % 4)
}

// "Both" over two sets of truths; where the numbers of both questions are equal, one choice serves both.
fn both_set(equal: bool, x: u8, y: u8) -> u8
    ensures { result ≡ mask truths (image_two ◌&&◌ equal (of_mask truths x) (of_mask truths y)) }
{
    if equal {
        possible::sets::digit(tables::BOTH_OF_ITSELF, y % 4)
    } else {
        possible::sets::digit(tables::BOTH[usize::from(x % 4)], y % 4)
    }
}

// The set of a question where the rows that it names have the sets s and t, and the questions the sets x and y; `equal` says whether its numbers are equal.
#[tactic(auto, unfolding(crate::specs::Questions::truth_set_by))]
fn truth_set_by(kind: QuestionKind, equal: bool, s: u8, t: u8, x: u8, y: u8) -> u8
    ensures { result ≡ mask truths (truth_set_by kind equal (of_mask decisions s) (of_mask decisions t) (of_mask truths x) (of_mask truths y)) }
{
    match kind {
        QuestionKind::Compare(order) => compare_set(order, equal, s, t),
        QuestionKind::Not => not_set(x),
        QuestionKind::Both => both_set(equal, x, y),
    }
}

// What the sets of questions are filled in by: the sets of the rows.
#[derive(Drop)]
struct QuestionRule<'a> {
    sets: &'a [u8],
}

impl Rule<u8> for QuestionRule<'_> {
    type Read = QuestionKind;

    ghost reads = { as_question };

    ghost answers = { λ by kind e x y v. v ≡ mask truths
        (truth_set_by kind (equal_numbers e) (set_at by.sets.now e.a) (set_at by.sets.now e.b) (of_mask truths x) (of_mask truths y)) };

    ghost one = { λ by kind e x y v w p q. p ∙ sym q };

    fn read(kind: Kind) -> QuestionKind
        ensures { result ≡ as_question kind }
    {
        kinds::as_question(kind)
    }

    fn value(&self, kind: QuestionKind, e: Entry, x: u8, y: u8) -> u8
        ensures { result ≡ mask truths (truth_set_by kind (equal_numbers e)
            (set_at self.now.sets.now e.a) (set_at self.now.sets.now e.b) (of_mask truths x) (of_mask truths y)) }
    {
        let s = possible::mask_at(self.sets, e.a);
        let t = possible::mask_at(self.sets, e.b);
        truth_set_by(kind, e.a == e.b, s, t, x, y)
    }
}

// The sets of questions, from the sets of the rows, into the front of what is lent, as many as there is room for.
pub fn fill_truths(questions: &[Entry], sets: &[u8], masks: &mut [u8])
    ensures { masks.new ≡
        filled truths (asks_set (set_at sets.now)) (single true) questions.now masks.old }
{
    decide::rows::fill(questions, &QuestionRule { sets }, 1, masks);
}

// How many rows a question of this kind and these numbers looks at, where the questions that it names look at x and y. The kind is handed over beside the
// numbers, since it is read as a question's already, which an entry's own is not.
fn top_by(kind: QuestionKind, a: u8, b: u8, x: u16, y: u16) -> u16
    ensures { (result ≡ top_by kind a b x y) × (x ≤ number_limit → y ≤ number_limit → result ≤ number_limit) }
{
    match kind {
        QuestionKind::Compare(_) => u16::from(a.max(b)) + 1,
        QuestionKind::Not => x,
        QuestionKind::Both => x.max(y),
    }
}

// What counts of rows are filled in by: nothing but the questions.
#[derive(Drop)]
struct TopRule;

impl Rule<u16> for TopRule {
    type Read = QuestionKind;

    ghost reads = { as_question };

    ghost answers = { λ by kind e x y v. (v ≡ top_by kind e.a e.b x y) × (x ≤ number_limit → y ≤ number_limit → v ≤ number_limit) };

    ghost one = { λ by kind e x y v w p q. p.0 ∙ sym q.0 };

    fn read(kind: Kind) -> QuestionKind {
        kinds::as_question(kind)
    }

    fn value(&self, kind: QuestionKind, e: Entry, x: u16, y: u16) -> u16 {
        top_by(kind, e.a, e.b, x, y)
    }
}

// How many rows one of these questions looks at: those up to the highest that it reaches. One that is not there looks at none.
pub fn top_of(questions: &[Entry], question: u8) -> usize
    ensures { (result ≡ top_in questions.now question) × (result ≤ number_limit) }
{
    let mut tops = [0u16; entries::NUMBERS];
    decide::rows::fill(questions, &TopRule, 0, &mut tops);
    usize::from(tops[entries::index(question)])
}
