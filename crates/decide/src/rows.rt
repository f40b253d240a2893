// Values filled in from entries, each from the two before it that its entry names: sets, truths and counts alike.
ghost use Rattle.std.specs.Prelude.{◌≡◌, get_or, length, min};
ghost use Rattle.entries.specs.declared.Entry.{Entry};
ghost use Rattle.kinds.specs.declared.Kind.{Kind};
ghost use Rattle.decide.specs.Rows.{FilledBy};

use entries::Entry;
use kinds::Kind;

// The value at a number of those filled so far; `none` at a number that is not there yet.
pub fn value_at<T: Copy>(done: &[T], n: u8, none: T) -> T
    ensures { result ≡ get_or done.now n none }
{
    let at = entries::index(n);
    if at < done.len() { done[at] } else { none }
}

// A rule that values are filled in by: how it reads an entry's kind, and the value that it gives by the kind as read, the entry, and the values at its two
// numbers. A trait and no closures: a closure may ask something and answer in two ways, and then `fill` would. A rule asks nothing, and has one answer.
pub trait Rule<T> {
    type Read;

    ghost reads: { Kind → Self.Read };

    ghost answers: { Self → Self.Read → Entry → T → T → T → Type 0 };

    ghost one: { (by : Self) (read : Self.Read) (e : Entry) (x y v w : T) → answers by read e x y v → answers by read e x y w → v ≡ w };

    fn read(kind: Kind) -> Self::Read
        ensures { result ≡ reads kind };

    fn value(&self, read: Self::Read, e: Entry, x: T, y: T) -> T
        ensures { answers self.now read e x y result };
}

// The values of entries, as many as there is room for, into the front of what is lent: each by the rule, from its entry and the values at its two numbers.
// The rule reads the entry's kind before the values are looked up: so the compiler makes no branch of it, and a walk takes half the time.
#[inline(always)]
pub fn fill<T: Copy, R: Rule<T>>(entries: &[Entry], rule: &R, none: T, values: &mut [T])
    ensures { FilledBy (λ e. R.answers rule.now (R.reads e.kind) e) none entries.now
        (min (length entries.now) (length values.old)) values.old values.new }
{
    let end = entries.len().min(values.len());
    for (i, e) in entries[..end].iter().enumerate() {
        let read = R::read(e.kind);
        let done = &values[..i];
        let x = value_at(done, e.a, none);
        let y = value_at(done, e.b, none);
        let v = rule.value(read, *e, x, y);
        values[i] = v;
    }
}
