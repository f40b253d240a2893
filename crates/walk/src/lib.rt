// The walk that answers a question, with a budget of visits.
#![tactic(auto)]

ghost use Rattle.std.specs.Prelude.{◌≡◌, ◌+◌, ◌-◌, ◌^◌, ◌≤◌, ◌<◌};
ghost use Rattle.std.proofs.Math.Option.{none};
ghost use Rattle.table.specs.Steps.{predicate_limit, question_limit};
ghost use Rattle.possible.specs.Sets.{truths as both_truths, of_mask};
ghost use Rattle.walk.specs.Walk.{look, heeding, found_at, sees, ended, reply_of};
ghost use Rattle.walk.specs.Inner.{reply_in, breaks_in, bounds_in, count_of, plus_of, walk_from, goes_on, Lent};

use constraints::Standing;
use decide::Facts;
use entries::Entry;
use table::Table;

// What a visit sees: nothing breaks the question here, a breaking request is found, or neither yet.
#[derive(Clone, Copy, Debug, PartialEq, Eq)]
pub enum Look {
    Nothing,
    Found,
    Open,
}

// Holds, with the count of visits; fails, with the breaking request and the count; unfinished, with the budget.
#[derive(Clone, Copy, Debug, PartialEq, Eq)]
pub enum Reply {
    Holds(u32),
    Fails(u32, u32),
    Unfinished(u32),
}

// What a visit sees of a set of truths: settled true, settled false, or neither yet.
#[tactic(auto, using(crate::proofs::Looks::look_true, crate::proofs::Looks::look_false, crate::proofs::Looks::look_open))]
fn look_of(t: u8) -> Look
    ensures { result ≡ look (of_mask both_truths t) }
{
    match t % 4 {
        1 => Look::Nothing,
        2 => Look::Found,
        _ => Look::Open,
    }
}

// What a visit sees by how its facts stand to the constraints: nothing where they break one; and a settled-false visit goes on while one waits.
fn heed(standing: Standing, seen: Look) -> Look
    ensures { result ≡ heeding standing seen }
{
    match standing {
        Standing::Broken => Look::Nothing,
        Standing::Waiting => match seen {
            Look::Nothing => Look::Nothing,
            Look::Found => Look::Open,
            Look::Open => Look::Open,
        },
        Standing::Kept => seen,
    }
}

// Whether visits are made below one: it goes on, and a predicate is left. At k = n none goes on (`settled-at-n`).
fn goes_on(seen: Look, k: u32, n: u32) -> bool
    ensures { result ≡ goes_on seen k n }
{
    (seen == Look::Open) & (k < n)
}

// The reply of a visit below which none is made.
fn settled(seen: Look, facts: u32) -> Reply
    ensures { result ≡ ended (found_at seen facts none) 1 }
{
    match seen {
        Look::Nothing => Reply::Holds(1),
        Look::Found => Reply::Fails(facts, 1),
        Look::Open => Reply::Holds(1),
    }
}

// The facts with predicate k yes.
fn with_yes(facts: u32, k: u32) -> u32
    requires { (facts < 2 ^ k) × (k < predicate_limit) }
    ensures { (result ≡ facts + 2 ^ k) × (result < 2 ^ (k + 1)) }
{
    facts + (1 << k)
}

// A reply with so many visits made before it, out of a budget that had them.
fn plus(r: Reply, made: u32, budget: u32) -> Reply
    requires { (made ≤ budget) × (count_of r ≤ budget - made) }
    ensures { result ≡ plus_of r made budget }
{
    match r {
        Reply::Holds(c) => Reply::Holds(made + c),
        Reply::Fails(m, c) => Reply::Fails(m, made + c),
        Reply::Unfinished(_) => Reply::Unfinished(budget),
    }
}

// What a walk goes by: the constraints, the rows that the question looks at, the questions up to it, and the sets and truths that its last visit filled.
#[derive(Drop)]
struct Walk<'a> {
    constraints: &'a [Entry],
    rows: &'a [Entry],
    questions: &'a [Entry],
    question: usize,
    sets: [u8; Table::ROWS],
    truths: [u8; Table::QUESTIONS],
    ghost lent: { Lent rows.now questions.now question },
}

impl Walk<'_> {
    ghost use Rattle.walk.specs.Seeing.{sees_in};

    // What a visit sees of the question with predicates 0 to k-1 known and these facts yes.
    fn visit(&mut self, k: u32, facts: u32) -> Look
        requires { k ≤ predicate_limit }
        ensures sight { result ≡ sees_in self.old (2 ^ k - 1) facts }
        ensures kept { sees_in self.new ≡ sees_in self.old }
    {
        let facts = Facts {
            known: (1 << k) - 1,
            yes: facts,
        };
        let standing = constraints::met(self.constraints, facts);
        if standing == Standing::Broken {
            return Look::Nothing;
        }
        possible::fill_sets(self.rows, facts, &mut self.sets);
        questions::fill_truths(self.questions, &self.sets, &mut self.truths);
        heed(standing, look_of(self.truths[self.question]))
    }

    // The walk from a visit with predicates 0 to k-1 known, of n.
    #[tactic(auto, using(crate::proofs::Replies::no_budget))]
    fn from(&mut self, n: u32, k: u32, facts: u32, budget: u32) -> Reply
        requires { (k ≤ n) × (n ≤ predicate_limit) × (facts < 2 ^ k) }
        ensures reply { result ≡ reply_of budget (walk_from (sees_in self.old) n k facts) }
        ensures kept { sees_in self.new ≡ sees_in self.old }
    {
        if budget == 0 {
            return Reply::Unfinished(0);
        }
        let seen = self.visit(k, facts);
        if !goes_on(seen, k, n) {
            return settled(seen, facts);
        }
        let yes = with_yes(facts, k);
        let first = self.from(n, k + 1, facts, budget - 1);
        let Reply::Holds(a) = first else {
            return plus(first, 1, budget);
        };
        let second = self.from(n, k + 1, yes, budget - 1 - a);
        plus(second, 1 + a, budget)
    }
}

// The walk for a question of a table, from a visit with predicates 0 to k-1 known, of n.
fn walk_at(t: Table, question: usize, n: u32, k: u32, facts: u32, budget: u32) -> Reply
    requires { (question < question_limit) × (k ≤ n) × (n ≤ predicate_limit) × (facts < 2 ^ k) }
    ensures { result ≡ reply_of budget (walk_from (sees (bounds_in t) t.rows t.questions question) n k facts) }
{
    let bound = t.tally.constraints.min(Table::CONSTRAINTS);
    let questions = &t.questions[..question + 1];
    let top = questions::top_of(questions, question as u8);
    let mut walk = Walk {
        constraints: &t.constraints[..bound],
        rows: &t.rows[..top],
        questions,
        question,
        sets: [0; Table::ROWS],
        truths: [0; Table::QUESTIONS],
    };
    walk.from(n, k, facts, budget)
}

// The verdict on a question of a table, within a budget of visits; nothing is claimed of a question that no table has room for.
pub fn verdict(t: Table, question: usize, budget: u32) -> Reply
    ensures { result ≡ reply_in budget (bounds_in t) t.rows t.questions t.predicates question }
{
    if Table::QUESTIONS <= question {
        return Reply::Unfinished(budget);
    }
    let n = t.predicates.min(Table::PREDICATES) as u32;
    walk_at(t, question, n, 0, 0, budget)
}

// How many predicates a table has room for, and the least mask with a bit beyond them. The services have their own two,
// in which an edit of theirs may err alone.
const PREDICATES: u32 = Table::PREDICATES as u32;

const MASKS: u32 = 1 << Table::PREDICATES;

// Whether a request keeps the constraints of a table and breaks a question: what the visit that knows every predicate sees. No request breaks a question
// that no table has room for, and a mask with a bit beyond the predicates is none.
pub fn breaks(t: Table, question: usize, request: u32) -> bool
    ensures { result ≡ breaks_in (bounds_in t) t.rows t.questions question request }
{
    if Table::QUESTIONS <= question || MASKS <= request {
        return false;
    }
    matches!(
        walk_at(t, question, PREDICATES, PREDICATES, request, 1),
        Reply::Fails(_, _)
    )
}
