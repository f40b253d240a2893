// Sets of decisions as masks in which u counts 1, d 2, g 4, c 8. The high bits of a number that is taken for a mask count nothing.
// Masks, and no type of their own: C gets them so, and an image is looked up by them.
ghost use Rattle.std.specs.Prelude.{ℕ, false, ◌≡◌, ◌*◌, ◌/◌, ◌%◌, ◌^◌, get_or};
ghost use Rattle.operators.specs.Operators.{one, two};
ghost use Rattle.possible.specs.Sets.{decisions, mask, of_mask, single, either, image_one, image_two};

use crate::tables;
use belnap::Decision;
use operators::{OneRow, TwoRow};

// The set of one decision alone.
#[tactic(auto, unfolding(crate::specs::Sets::mask))]
pub(crate) fn only(x: Decision) -> u8
    ensures { result ≡ mask decisions (single x) }
{
    match x {
        Decision::U => 1,
        Decision::D => 2,
        Decision::G => 4,
        Decision::C => 8,
    }
}

// The set of u and one decision: a predicate row whose predicate is unknown.
#[tactic(auto, unfolding(crate::specs::Sets::mask))]
pub(crate) fn perhaps(x: Decision) -> u8
    ensures { result ≡ mask decisions (either (single Decision.U) (single x)) }
{
    match x {
        Decision::U => 1,
        Decision::D => 3,
        Decision::G => 5,
        Decision::C => 9,
    }
}

// A digit of a word in hexadecimal, from the low end, by the low four bits of a number.
pub fn digit(word: u64, n: u8) -> u8
    ensures { result ≡ word / 2 ^ (4 * (n % 16)) % 16 }
{
    let place = 4 * (n % 16);
    ((word >> place) % 16) as u8
}

// A one-row operator's images as a word: its digit n is the image of the set with mask n.
fn word_of(op: OneRow) -> u64
    ensures { (n : ℕ) → result / 2 ^ (4 * (n % 16)) % 16 ≡ mask decisions (image_one (one op) (of_mask decisions n)) }
{
    match op {
        OneRow::Negation => tables::NEGATION,
        OneRow::Conflation => tables::CONFLATION,
        OneRow::ClosedDefault => tables::CLOSED_DEFAULT,
        OneRow::OpenDefault => tables::OPEN_DEFAULT,
    }
}

// Every result of a one-row operator over every choice from a set.
pub(crate) fn image_one(op: OneRow, s: u8) -> u8
    ensures { result ≡ mask decisions (image_one (one op) (of_mask decisions s)) }
{
    digit(word_of(op), s)
}

// A two-row operator's images as sixteen words: digit n of word m is the image of the sets with masks m and n, a choice from each by itself.
fn table_of(op: TwoRow) -> &'static [u64; 16]
    ensures { (m n : ℕ) → get_or result.now (m % 16) 0 / 2 ^ (4 * (n % 16)) % 16
        ≡ mask decisions (image_two (two op) false (of_mask decisions m) (of_mask decisions n)) }
{
    match op {
        TwoRow::TruthMeet => &tables::TRUTH_MEET,
        TwoRow::TruthJoin => &tables::TRUTH_JOIN,
        TwoRow::KnowledgeMeet => &tables::KNOWLEDGE_MEET,
        TwoRow::KnowledgeJoin => &tables::KNOWLEDGE_JOIN,
        TwoRow::Implication => &tables::IMPLICATION,
        TwoRow::Guard => &tables::GUARD,
        TwoRow::OverrideU => &tables::OVERRIDE_U,
        TwoRow::OverrideD => &tables::OVERRIDE_D,
        TwoRow::OverrideG => &tables::OVERRIDE_G,
        TwoRow::OverrideC => &tables::OVERRIDE_C,
    }
}

// A two-row operator's diagonal as a word: its digit n is the image of the set with mask n where one choice serves both operands.
fn diagonal_of(op: TwoRow) -> u64
    ensures { (n : ℕ) → result / 2 ^ (4 * (n % 16)) % 16 ≡ mask decisions (image_one (λ x. two op x x) (of_mask decisions n)) }
{
    match op {
        TwoRow::Implication => tables::IMPLICATION_OF_ITSELF,
        TwoRow::Guard => tables::GUARD_OF_ITSELF,
        TwoRow::TruthMeet
        | TwoRow::TruthJoin
        | TwoRow::KnowledgeMeet
        | TwoRow::KnowledgeJoin
        | TwoRow::OverrideU
        | TwoRow::OverrideD
        | TwoRow::OverrideG
        | TwoRow::OverrideC => tables::ITSELF,
    }
}

// Every result of a two-row operator over every choice from the sets of two rows; where their numbers are equal, one choice serves both.
#[tactic(auto, using(crate::proofs::Images::two_itself))]
pub(crate) fn image_two(op: TwoRow, equal: bool, s: u8, t: u8) -> u8
    ensures { result ≡ mask decisions (image_two (two op) equal (of_mask decisions s) (of_mask decisions t)) }
{
    if equal {
        digit(diagonal_of(op), t)
    } else {
        digit(table_of(op)[usize::from(s % 16)], t)
    }
}
