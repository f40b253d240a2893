// The operators on decisions by name: those of the two orders (belnap::lattice) and the others, which stand here. Under its sentence of 01, each says what
// its decision grants, and what it denies; an override takes one of its two decisions, by the claims of the first.
#![tactic(auto)]

ghost use Rattle.std.specs.Prelude.{◌≡◌};
ghost use Rattle.belnap.specs.Decisions.{same};
ghost use Rattle.operators.specs.Operators.{closed_default, open_default, implication as implied, guard as guarded, override, one, two};

use belnap::{Decision, claiming, denies, grants, lattice};

// The one-row operators by name.
#[derive(Clone, Copy, Debug, PartialEq, Eq)]
pub enum OneRow {
    Negation,
    Conflation,
    ClosedDefault,
    OpenDefault,
}

// The two-row operators by name.
#[derive(Clone, Copy, Debug, PartialEq, Eq)]
pub enum TwoRow {
    TruthMeet,
    TruthJoin,
    KnowledgeMeet,
    KnowledgeJoin,
    Implication,
    Guard,
    OverrideU,
    OverrideD,
    OverrideG,
    OverrideC,
}

// "Closed default turns u and c into d": grants if x only grants, and denies otherwise.
fn closed_default(x: Decision) -> Decision
    ensures { result ≡ closed_default x }
{
    claiming(grants(x) & !denies(x), !grants(x) | denies(x))
}

// "Open default turns them into g": denies if x only denies, and grants otherwise.
fn open_default(x: Decision) -> Decision
    ensures { result ≡ open_default x }
{
    claiming(grants(x) | !denies(x), !grants(x) & denies(x))
}

// "Implication: the second if the first is g or c; otherwise g": grants if x does not grant or y grants, denies if x grants and y denies.
fn implication(x: Decision, y: Decision) -> Decision
    ensures { result ≡ implied x y }
{
    claiming(!grants(x) | grants(y), grants(x) & denies(y))
}

// "Guard: the second if the first is g or c; otherwise u": grants if x grants and y grants, denies if x grants and y denies.
fn guard(x: Decision, y: Decision) -> Decision
    ensures { result ≡ guarded x y }
{
    claiming(grants(x) & grants(y), grants(x) & denies(y))
}

// Whether x is y: it is if both claims are alike. Not by the derived `==`, which compares codes: the desk asked for operators over the two claims (02, L4).
fn same_claims(x: Decision, y: Decision) -> bool
    ensures { result ≡ same x y }
{
    (grants(x) == grants(y)) & (denies(x) == denies(y))
}

// "Override of v: the second if the first is v; otherwise the first": both claims are those of y if x is v, and those of x if not.
fn override_of(v: Decision, x: Decision, y: Decision) -> Decision
    ensures { result ≡ override v x y }
{
    if same_claims(x, v) { y } else { x }
}

// The one-row operator with a name, applied.
pub fn apply_one(op: OneRow, x: Decision) -> Decision
    ensures { result ≡ one op x }
{
    match op {
        OneRow::Negation => lattice::negation(x),
        OneRow::Conflation => lattice::conflation(x),
        OneRow::ClosedDefault => closed_default(x),
        OneRow::OpenDefault => open_default(x),
    }
}

// The two-row operator with a name, applied.
pub fn apply_two(op: TwoRow, x: Decision, y: Decision) -> Decision
    ensures { result ≡ two op x y }
{
    match op {
        TwoRow::TruthMeet => lattice::truth_meet(x, y),
        TwoRow::TruthJoin => lattice::truth_join(x, y),
        TwoRow::KnowledgeMeet => lattice::knowledge_meet(x, y),
        TwoRow::KnowledgeJoin => lattice::knowledge_join(x, y),
        TwoRow::Implication => implication(x, y),
        TwoRow::Guard => guard(x, y),
        TwoRow::OverrideU => override_of(Decision::U, x, y),
        TwoRow::OverrideD => override_of(Decision::D, x, y),
        TwoRow::OverrideG => override_of(Decision::G, x, y),
        TwoRow::OverrideC => override_of(Decision::C, x, y),
    }
}
