// The four decisions of the rule desk, their two claims and their codes. What each claims is defined in specs/Decisions.antt.
// The names of the two orders, and the meet, join and negation of each, stand in the modules below.
#![tactic(auto)]

pub mod lattice;
pub mod orders;

ghost use Rattle.std.specs.Prelude.{◌≡◌};
ghost use Rattle.belnap.specs.Decisions.{grants, denies, claiming, code, coded};

#[derive(Clone, Copy, Debug, PartialEq, Eq)]
pub enum Decision {
    U = 0,
    D = 1,
    G = 2,
    C = 3,
}

// "Each decision is two claims, 'grants' and 'denies': u has neither, d only denies, g only grants, c has both."
pub fn grants(x: Decision) -> bool
    ensures { result ≡ grants x }
{
    matches!(x, Decision::G | Decision::C)
}

pub fn denies(x: Decision) -> bool
    ensures { result ≡ denies x }
{
    matches!(x, Decision::D | Decision::C)
}

// The decision with these two claims. Its code has them as bits: "denies" counts 1, "grants" 2.
// By a case of the two claims it takes longer (docs/DECISIONS.md, `claiming`).
#[tactic(auto, unfolding(crate::specs::Decisions::coded))]
pub fn claiming(grants: bool, denies: bool) -> Decision
    ensures { result ≡ claiming grants denies }
{
    decision_of(2 * u8::from(grants) + u8::from(denies))
}

pub fn code_of(x: Decision) -> u8
    ensures { result ≡ code x }
{
    x as u8
}

// The decision with a code; a number that is no code reads as u. So it cannot fail, and is no `TryFrom`.
#[tactic(auto, unfolding(crate::specs::Decisions::coded))]
pub fn decision_of(n: u8) -> Decision
    ensures { result ≡ coded n }
{
    match n {
        1 => Decision::D,
        2 => Decision::G,
        3 => Decision::C,
        _ => Decision::U,
    }
}
