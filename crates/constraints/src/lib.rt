// What the constraints of a table say of known facts.
#![tactic(auto)]

ghost use Rattle.std.specs.Prelude.{◌≡◌};
ghost use Rattle.kinds.specs.Kinds.{as_constraint};
ghost use Rattle.constraints.specs.Constraints.{stands_by, standing};

use decide::Facts;
use entries::Entry;
use kinds::{ConstraintKind, Kind};

// How known facts stand to constraints: they break one; they break none, but one waits for what is unknown; or neither.
#[derive(Clone, Copy, Debug, PartialEq, Eq)]
pub enum Standing {
    Broken,
    Waiting,
    Kept,
}

// What is no constraint reads as "only if", so that this cannot fail.
fn as_constraint(kind: Kind) -> ConstraintKind
    ensures { result ≡ as_constraint kind }
{
    match kind {
        Kind::Constraint(constraint) => constraint,
        _ => ConstraintKind::OnlyIf,
    }
}

// How known facts stand to one constraint.
fn stands_by(e: Entry, facts: Facts) -> Standing
    ensures { result ≡ stands_by (as_constraint e.kind) facts.known facts.yes e.a e.b }
{
    if !facts.known_yes(e.a) {
        return Standing::Kept;
    }
    match as_constraint(e.kind) {
        ConstraintKind::NeverBoth => if facts.known_yes(e.b) {
            Standing::Broken
        } else {
            Standing::Kept
        },
        ConstraintKind::OnlyIf => {
            if !decide::bit_of(facts.known, e.b) {
                return Standing::Waiting;
            }
            if decide::bit_of(facts.yes, e.b) {
                Standing::Kept
            } else {
                Standing::Broken
            }
        }
    }
}

// How known facts stand to constraints.
#[tactic(auto, unfolding(crate::specs::Constraints::standing))]
pub fn met(constraints: &[Entry], facts: Facts) -> Standing
    ensures { result ≡ standing constraints.now facts.known facts.yes }
{
    let mut waits = false;
    for e in constraints {
        match stands_by(*e, facts) {
            Standing::Broken => return Standing::Broken,
            Standing::Waiting => waits = true,
            Standing::Kept => {}
        }
    }
    if waits {
        Standing::Waiting
    } else {
        Standing::Kept
    }
}
