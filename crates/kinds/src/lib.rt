// The table of kinds: what a kind byte announces, which byte announces a kind, and what a kind's body holds.
// Reading, looking an entry up, writing and striking all go by it. Each kind's word stands in the module below.
#![tactic(auto)]

pub mod words;

ghost use Rattle.std.specs.Prelude.{◌≡◌, ◌+◌, ◌≤◌, ◌<◌};
ghost use Rattle.kinds.specs.Kinds.{kind_of, form_of, form_with, byte_of_one, byte_of_two, byte_of_order, as_row, as_question, of_row};

use belnap::Decision;
use belnap::orders::Order;
use operators::{OneRow, TwoRow};

// The kinds of a row.
#[derive(Clone, Copy, Debug, PartialEq, Eq)]
pub enum RowKind {
    Always(Decision),
    DenyIf,
    GrantIf,
    One(OneRow),
    Two(TwoRow),
}

// The kinds of a question.
#[derive(Clone, Copy, Debug, PartialEq, Eq)]
pub enum QuestionKind {
    Compare(Order),
    Not,
    Both,
}

// The kinds of a constraint, which says what no request may bring.
#[derive(Clone, Copy, Debug, PartialEq, Eq)]
pub enum ConstraintKind {
    NeverBoth,
    OnlyIf,
}

// What an entry is. The last says whose the rows behind it are.
#[derive(Clone, Copy, Debug, PartialEq, Eq)]
pub enum Kind {
    Row(RowKind),
    Question(QuestionKind),
    Constraint(ConstraintKind),
    Supplier,
}

// What the numbers of a body name.
#[derive(Clone, Copy, Debug, PartialEq, Eq)]
pub enum Names {
    Nothing,
    Predicates,
    Rows,
    Questions,
    Suppliers,
}

// A line of the table of kinds: the byte that announces a kind, how many numbers its body has, and what they name.
#[derive(Clone, Copy, Debug, PartialEq, Eq)]
pub struct Form {
    pub byte: u8,
    pub numbers: usize,
    pub names: Names,
}

// The kind that a byte announces.
#[tactic(auto, unfolding(crate::specs::Kinds::kind_of))]
pub fn kind_of(byte: u8) -> Option<Kind>
    ensures { result ≡ kind_of byte }
{
    match byte {
        0x00 => Some(Kind::Row(RowKind::Always(Decision::U))),
        0x01 => Some(Kind::Row(RowKind::Always(Decision::D))),
        0x02 => Some(Kind::Row(RowKind::Always(Decision::G))),
        0x03 => Some(Kind::Row(RowKind::Always(Decision::C))),
        0x10 => Some(Kind::Row(RowKind::DenyIf)),
        0x11 => Some(Kind::Row(RowKind::GrantIf)),
        0x20 => Some(Kind::Row(RowKind::One(OneRow::Negation))),
        0x21 => Some(Kind::Row(RowKind::One(OneRow::Conflation))),
        0x22 => Some(Kind::Row(RowKind::One(OneRow::ClosedDefault))),
        0x23 => Some(Kind::Row(RowKind::One(OneRow::OpenDefault))),
        0x30 => Some(Kind::Row(RowKind::Two(TwoRow::TruthMeet))),
        0x31 => Some(Kind::Row(RowKind::Two(TwoRow::TruthJoin))),
        0x32 => Some(Kind::Row(RowKind::Two(TwoRow::KnowledgeMeet))),
        0x33 => Some(Kind::Row(RowKind::Two(TwoRow::KnowledgeJoin))),
        0x34 => Some(Kind::Row(RowKind::Two(TwoRow::Implication))),
        0x35 => Some(Kind::Row(RowKind::Two(TwoRow::Guard))),
        0x38 => Some(Kind::Row(RowKind::Two(TwoRow::OverrideU))),
        0x39 => Some(Kind::Row(RowKind::Two(TwoRow::OverrideD))),
        0x3A => Some(Kind::Row(RowKind::Two(TwoRow::OverrideG))),
        0x3B => Some(Kind::Row(RowKind::Two(TwoRow::OverrideC))),
        0x40 => Some(Kind::Question(QuestionKind::Compare(Order::Truth))),
        0x41 => Some(Kind::Question(QuestionKind::Compare(Order::Knowledge))),
        0x42 => Some(Kind::Question(QuestionKind::Not)),
        0x43 => Some(Kind::Question(QuestionKind::Both)),
        0x50 => Some(Kind::Constraint(ConstraintKind::NeverBoth)),
        0x51 => Some(Kind::Constraint(ConstraintKind::OnlyIf)),
        0x60 => Some(Kind::Supplier),
        _ => None,
    }
}

// A line of the table.
fn line(byte: u8, numbers: usize, names: Names) -> Form
    ensures { result ≡ form_with byte numbers names }
{
    Form {
        byte,
        numbers,
        names,
    }
}

// The form of a kind of row.
fn row_form(kind: RowKind) -> Form
    ensures { result ≡ form_of (Kind.Row kind) }
{
    match kind {
        RowKind::Always(v) => line(belnap::code_of(v), 0, Names::Nothing),
        RowKind::DenyIf => line(0x10, 1, Names::Predicates),
        RowKind::GrantIf => line(0x11, 1, Names::Predicates),
        RowKind::One(op) => line(byte_of_one(op), 1, Names::Rows),
        RowKind::Two(op) => line(byte_of_two(op), 2, Names::Rows),
    }
}

// The bytes of the operators and of the comparisons. They stand here, in the table of kinds, and not as discriminants in the crates below.
fn byte_of_one(op: OneRow) -> u8
    ensures { result ≡ byte_of_one op }
{
    match op {
        OneRow::Negation => 0x20,
        OneRow::Conflation => 0x21,
        OneRow::ClosedDefault => 0x22,
        OneRow::OpenDefault => 0x23,
    }
}

fn byte_of_two(op: TwoRow) -> u8
    ensures { result ≡ byte_of_two op }
{
    match op {
        TwoRow::TruthMeet => 0x30,
        TwoRow::TruthJoin => 0x31,
        TwoRow::KnowledgeMeet => 0x32,
        TwoRow::KnowledgeJoin => 0x33,
        TwoRow::Implication => 0x34,
        TwoRow::Guard => 0x35,
        TwoRow::OverrideU => 0x38,
        TwoRow::OverrideD => 0x39,
        TwoRow::OverrideG => 0x3A,
        TwoRow::OverrideC => 0x3B,
    }
}

fn byte_of_order(order: Order) -> u8
    ensures { result ≡ byte_of_order order }
{
    match order {
        Order::Truth => 0x40,
        Order::Knowledge => 0x41,
    }
}

// The form of a kind of question.
fn question_form(kind: QuestionKind) -> Form
    ensures { result ≡ form_of (Kind.Question kind) }
{
    match kind {
        QuestionKind::Compare(order) => line(byte_of_order(order), 2, Names::Rows),
        QuestionKind::Not => line(0x42, 1, Names::Questions),
        QuestionKind::Both => line(0x43, 2, Names::Questions),
    }
}

// The form of a kind of constraint.
fn constraint_form(kind: ConstraintKind) -> Form
    ensures { result ≡ form_of (Kind.Constraint kind) }
{
    match kind {
        ConstraintKind::NeverBoth => line(0x50, 2, Names::Predicates),
        ConstraintKind::OnlyIf => line(0x51, 2, Names::Predicates),
    }
}

// The form of a kind. Reading asks it for each entry, so it stands in place there.
#[inline(always)]
pub fn form_of(kind: Kind) -> Form
    ensures { result ≡ form_of kind }
{
    match kind {
        Kind::Row(row) => row_form(row),
        Kind::Question(question) => question_form(question),
        Kind::Constraint(constraint) => constraint_form(constraint),
        Kind::Supplier => line(0x60, 1, Names::Suppliers),
    }
}

// Whether a byte that is looked at announces a row's kind.
pub fn of_row(announced: Option<Kind>) -> bool
    ensures { result ≡ of_row announced }
{
    matches!(announced, Some(Kind::Row(_)))
}

// What is no row reads as always u, so that this cannot fail.
pub fn as_row(kind: Kind) -> RowKind
    ensures { result ≡ as_row kind }
{
    match kind {
        Kind::Row(row) => row,
        Kind::Question(_) => RowKind::Always(Decision::U),
        Kind::Constraint(_) => RowKind::Always(Decision::U),
        Kind::Supplier => RowKind::Always(Decision::U),
    }
}

// What is no question reads as "both", so that this cannot fail.
pub fn as_question(kind: Kind) -> QuestionKind
    ensures { result ≡ as_question kind }
{
    match kind {
        Kind::Row(_) => QuestionKind::Both,
        Kind::Question(question) => question,
        Kind::Constraint(_) => QuestionKind::Both,
        Kind::Supplier => QuestionKind::Both,
    }
}
