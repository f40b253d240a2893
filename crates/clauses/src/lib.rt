// The clauses that the entries of a table give to a solver: an entry has rules, and a rule its clauses (docs/SOLVERS.md).
#![tactic(auto)]

ghost use Rattle.std.specs.Prelude.{◌≡◌, [], ◌≤◌, length, get_or};
ghost use Rattle.clauses.specs.Rules.{negated as negation, signed as signing, any_of, clauses_of, shown_clause, one_rules, overriding as overridden};
ghost use Rattle.clauses.specs.Rules.{override_rules, two_rules, row_rules, comparison as compared, question_rule, constraint_rule};
ghost use Rattle.clauses.specs.Variables.{yes as is_true, predicate_at, claims_at, truth_at, rules_by};

use belnap::Decision;
use belnap::orders::Order;
use entries::Entry;
use kinds::{ConstraintKind, Kind, QuestionKind, RowKind};
use operators::{OneRow, TwoRow};
use std::ops::Not;

// A variable, or its negation.
#[derive(Clone, Copy, Debug, PartialEq, Eq)]
pub struct Literal {
    pub variable: usize,
    pub positive: bool,
}

// A row's two claims.
#[derive(Clone, Copy, Debug, PartialEq, Eq)]
pub struct Claims {
    pub grants: Literal,
    pub denies: Literal,
}

// What a literal is tied to: it is true; one of two is; and the first is true exactly if the second is, if the second and third are, if the second and one
// of the others are, or if one of the second and third and one of the others are.
#[derive(Clone, Copy, Debug, PartialEq, Eq)]
pub enum Rule {
    Only(Literal),
    Either(Literal, Literal),
    Same(Literal, Literal),
    And(Literal, Literal, Literal),
    AndOr(Literal, Literal, Literal, Literal),
    OrAndOr(Literal, Literal, Literal, Literal, Literal),
}

// The rules of an entry, two at most, without a heap.
#[derive(Clone, Copy, Debug, PartialEq, Eq)]
pub enum Rules {
    None,
    One(Rule),
    Two(Rule, Rule),
}

// A clause: its literals, one to three of them.
#[derive(Clone, Copy, Debug, PartialEq, Eq)]
pub enum Clause {
    One(Literal),
    Two(Literal, Literal),
    Three(Literal, Literal, Literal),
}

// The counts of a table that its variables go by.
#[derive(Clone, Copy, Debug, PartialEq, Eq)]
pub struct Layout {
    pub predicates: u32,
    pub rows: u32,
}

// A literal's negation.
impl Not for Literal {
    type Output = Literal;

    ghost not_gives = { λ l result. result ≡ negation l };

    fn not(self) -> Literal {
        Literal {
            variable: self.variable,
            positive: !self.positive,
        }
    }
}

// A literal, or its negation where it is said to be false.
fn signed(said: bool, l: Literal) -> Literal
    ensures { result ≡ signing said l }
{
    if said { l } else { !l }
}

// "t = a or b".
fn any(t: Literal, a: Literal, b: Literal) -> Rule
    ensures { result ≡ any_of t a b }
{
    Rule::And(!t, !a, !b)
}

// The one-row operators by their rules over the claims.
fn one_rules(op: OneRow, own: Claims, x: Claims) -> Rules
    ensures { result ≡ one_rules op own x }
{
    let g = own.grants;
    let d = own.denies;
    let gx = x.grants;
    let dx = x.denies;
    match op {
        OneRow::Negation => Rules::Two(Rule::Same(g, dx), Rule::Same(d, gx)),
        OneRow::Conflation => Rules::Two(Rule::Same(g, !dx), Rule::Same(d, !gx)),
        OneRow::ClosedDefault => Rules::Two(Rule::And(g, gx, !dx), Rule::Same(d, !g)),
        OneRow::OpenDefault => Rules::Two(Rule::Same(g, !d), Rule::And(d, dx, !gx)),
    }
}

// A claim of an override, by whether the decision to be overridden has this claim and the other.
fn overriding(has: bool, other: bool, own: Literal, cx: Literal, ox: Literal, cy: Literal) -> Rule
    ensures { result ≡ overridden has other own cx ox cy }
{
    Rule::AndOr(
        signed(has, own),
        signed(has, cx),
        signed(!other, ox),
        signed(has, cy),
    )
}

// "Override of v" by its rules over the claims.
fn override_rules(v: Decision, own: Claims, x: Claims, y: Claims) -> Rules
    ensures { result ≡ override_rules v own x y }
{
    let gx = x.grants;
    let dx = x.denies;
    let has = belnap::grants(v);
    let other = belnap::denies(v);
    Rules::Two(
        overriding(has, other, own.grants, gx, dx, y.grants),
        overriding(other, has, own.denies, dx, gx, y.denies),
    )
}

// The two-row operators by their rules over the claims.
fn two_rules(op: TwoRow, own: Claims, x: Claims, y: Claims) -> Rules
    ensures { result ≡ two_rules op own x y }
{
    let g = own.grants;
    let d = own.denies;
    let gx = x.grants;
    let dx = x.denies;
    let gy = y.grants;
    let dy = y.denies;
    match op {
        TwoRow::TruthMeet => Rules::Two(Rule::And(g, gx, gy), any(d, dx, dy)),
        TwoRow::TruthJoin => Rules::Two(any(g, gx, gy), Rule::And(d, dx, dy)),
        TwoRow::KnowledgeMeet => Rules::Two(Rule::And(g, gx, gy), Rule::And(d, dx, dy)),
        TwoRow::KnowledgeJoin => Rules::Two(any(g, gx, gy), any(d, dx, dy)),
        TwoRow::Implication => Rules::Two(any(g, !gx, gy), Rule::And(d, gx, dy)),
        TwoRow::Guard => Rules::Two(Rule::And(g, gx, gy), Rule::And(d, gx, dy)),
        TwoRow::OverrideU => override_rules(Decision::U, own, x, y),
        TwoRow::OverrideD => override_rules(Decision::D, own, x, y),
        TwoRow::OverrideG => override_rules(Decision::G, own, x, y),
        TwoRow::OverrideC => override_rules(Decision::C, own, x, y),
    }
}

// A row with the predicate p, where the rows that it names have the claims x and y.
fn row_rules(kind: RowKind, p: Literal, own: Claims, x: Claims, y: Claims) -> Rules
    ensures { result ≡ row_rules kind p own x y }
{
    let g = own.grants;
    let d = own.denies;
    match kind {
        RowKind::Always(v) => Rules::Two(
            Rule::Only(signed(belnap::grants(v), g)),
            Rule::Only(signed(belnap::denies(v), d)),
        ),
        RowKind::DenyIf => Rules::Two(Rule::Only(!g), Rule::Same(d, p)),
        RowKind::GrantIf => Rules::Two(Rule::Same(g, p), Rule::Only(!d)),
        RowKind::One(op) => one_rules(op, own, x),
        RowKind::Two(op) => two_rules(op, own, x, y),
    }
}

// "x at or below y", in either order.
fn comparison(order: Order, own: Literal, x: Claims, y: Claims) -> Rule
    ensures { result ≡ compared order own x y }
{
    let gx = x.grants;
    let dx = x.denies;
    let gy = y.grants;
    let dy = y.denies;
    match order {
        Order::Truth => Rule::OrAndOr(own, !gx, gy, !dy, dx),
        Order::Knowledge => Rule::OrAndOr(own, !gx, gy, !dx, dy),
    }
}

// A question about the rows with the claims u and v, or the questions x and y.
fn question_rule(
    kind: QuestionKind,
    own: Literal,
    u: Claims,
    v: Claims,
    x: Literal,
    y: Literal,
) -> Rule
    ensures { result ≡ question_rule kind own u v x y }
{
    match kind {
        QuestionKind::Compare(order) => comparison(order, own, u, v),
        QuestionKind::Not => Rule::Same(own, !x),
        QuestionKind::Both => Rule::And(own, x, y),
    }
}

// A constraint on two predicates.
fn constraint_rule(kind: ConstraintKind, p: Literal, q: Literal) -> Rule
    ensures { result ≡ constraint_rule kind p q }
{
    match kind {
        ConstraintKind::NeverBoth => Rule::Either(!p, !q),
        ConstraintKind::OnlyIf => Rule::Either(!p, q),
    }
}

// The literal that a variable is true.
fn yes(variable: usize) -> Literal
    ensures { result ≡ is_true variable }
{
    Literal {
        variable,
        positive: true,
    }
}

// The variable of a predicate, those of a row, and that of a question.
fn predicate_at(p: u8) -> Literal
    ensures { result ≡ predicate_at p }
{
    yes(usize::from(p) + 1)
}

fn claims_at(layout: Layout, r: u32) -> Claims
    ensures { result ≡ claims_at layout r }
{
    let before = layout.predicates as usize + 2 * (r as usize);
    Claims {
        grants: yes(before + 1),
        denies: yes(before + 2),
    }
}

pub fn truth_at(layout: Layout, j: u32) -> Literal
    ensures { result ≡ truth_at layout j }
{
    let before = layout.predicates as usize + 2 * (layout.rows as usize);
    yes(before + j as usize + 1)
}

// The rules of an entry with a number.
pub fn rules_of(layout: Layout, number: u32, e: Entry) -> Rules
    ensures { result ≡ rules_by layout number e.kind e.a e.b }
{
    let i = u32::from(e.a);
    let j = u32::from(e.b);
    let x = claims_at(layout, i);
    let y = claims_at(layout, j);
    match e.kind {
        Kind::Row(row) => row_rules(row, predicate_at(e.a), claims_at(layout, number), x, y),
        Kind::Question(question) => Rules::One(question_rule(
            question,
            truth_at(layout, number),
            x,
            y,
            truth_at(layout, i),
            truth_at(layout, j),
        )),
        Kind::Constraint(constraint) => Rules::One(constraint_rule(
            constraint,
            predicate_at(e.a),
            predicate_at(e.b),
        )),
        Kind::Supplier => Rules::None,
    }
}

// How many clauses a rule has.
pub fn clause_count(rule: Rule) -> usize
    ensures { (result ≡ length (clauses_of rule)) × (result ≤ 6) }
{
    match rule {
        Rule::Only(_) => 1,
        Rule::Either(_, _) => 1,
        Rule::Same(_, _) => 2,
        Rule::And(_, _, _) => 3,
        Rule::AndOr(_, _, _, _) => 4,
        Rule::OrAndOr(_, _, _, _, _) => 6,
    }
}

// Clause i of a rule, where it has one. Always inlined, so that a caller takes its literals from the rule, and not from a copy.
#[inline(always)]
pub fn clause_of(rule: Rule, i: usize) -> Option<Clause>
    ensures { result ≡ shown_clause (get_or (clauses_of rule) i []) }
{
    match (rule, i) {
        (Rule::Only(t), 0) => Some(Clause::One(t)),
        (Rule::Either(a, b), 0) => Some(Clause::Two(a, b)),
        (Rule::Same(t, a), 0) => Some(Clause::Two(!t, a)),
        (Rule::Same(t, a), 1) => Some(Clause::Two(t, !a)),
        (Rule::And(t, a, _), 0) => Some(Clause::Two(!t, a)),
        (Rule::And(t, _, b), 1) => Some(Clause::Two(!t, b)),
        (Rule::And(t, a, b), 2) => Some(Clause::Three(t, !a, !b)),
        (Rule::AndOr(t, a, _, _), 0) => Some(Clause::Two(!t, a)),
        (Rule::AndOr(t, _, b, c), 1) => Some(Clause::Three(!t, b, c)),
        (Rule::AndOr(t, a, b, _), 2) => Some(Clause::Three(t, !a, !b)),
        (Rule::AndOr(t, a, _, c), 3) => Some(Clause::Three(t, !a, !c)),
        (Rule::OrAndOr(t, a, b, _, _), 0) => Some(Clause::Three(!t, a, b)),
        (Rule::OrAndOr(t, _, _, c, d), 1) => Some(Clause::Three(!t, c, d)),
        (Rule::OrAndOr(t, a, _, c, _), 2) => Some(Clause::Three(t, !a, !c)),
        (Rule::OrAndOr(t, a, _, _, d), 3) => Some(Clause::Three(t, !a, !d)),
        (Rule::OrAndOr(t, _, b, c, _), 4) => Some(Clause::Three(t, !b, !c)),
        (Rule::OrAndOr(t, _, b, _, d), 5) => Some(Clause::Three(t, !b, !d)),
        _ => None,
    }
}
