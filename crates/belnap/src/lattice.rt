// The operators of the two orders: the meet, the join and the negation of each. Each says what its decision grants, and what it denies, under its
// sentence of 01.
ghost use Rattle.std.specs.Prelude.{◌≡◌};
ghost use Rattle.belnap.specs.Lattice.{negation as negated, conflation as conflated, truth_meet, truth_join, knowledge_meet, knowledge_join};

use crate::{Decision, claiming, denies, grants};

// "Negation exchanges the claims."
pub fn negation(x: Decision) -> Decision
    ensures { result ≡ negated x }
{
    claiming(denies(x), grants(x))
}

// "Conflation exchanges u and c and keeps g and d": grants if x does not deny, denies if x does not grant.
pub fn conflation(x: Decision) -> Decision
    ensures { result ≡ conflated x }
{
    claiming(!denies(x), !grants(x))
}

// "Truth meet: grants if both grant, denies if either denies." So u and c give d: c denies, and u does not grant.
pub fn truth_meet(x: Decision, y: Decision) -> Decision
    ensures { result ≡ truth_meet x y }
{
    claiming(grants(x) & grants(y), denies(x) | denies(y))
}

// "Truth join: grants if either, denies if both."
pub fn truth_join(x: Decision, y: Decision) -> Decision
    ensures { result ≡ truth_join x y }
{
    claiming(grants(x) | grants(y), denies(x) & denies(y))
}

// "Knowledge meet: each claim if both have it."
pub fn knowledge_meet(x: Decision, y: Decision) -> Decision
    ensures { result ≡ knowledge_meet x y }
{
    claiming(grants(x) & grants(y), denies(x) & denies(y))
}

// "Knowledge join: each claim if either has it."
pub fn knowledge_join(x: Decision, y: Decision) -> Decision
    ensures { result ≡ knowledge_join x y }
{
    claiming(grants(x) | grants(y), denies(x) | denies(y))
}
