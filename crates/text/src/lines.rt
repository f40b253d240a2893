// One line of a text: written from an entry, and read as one.
ghost use Rattle.std.specs.Prelude.{◌≡◌, Some, cond, ◌∷◌, [], ◌++◌, map, ◌+◌, ◌≤◌, ◌<◌, length, take, drop};
ghost use Rattle.std.proofs.lemmas.List.Edits.{sets};
ghost use Rattle.decimal.specs.Decimal.{decimal, space, line_feed};
ghost use Rattle.decimal.specs.Put.{Put};
ghost use Rattle.kinds.specs.Kinds.{of_row};
ghost use Rattle.kinds.specs.Words.{word_of, kind_spelled};
ghost use Rattle.entries.specs.Said.{said};
ghost use Rattle.table.specs.Suppliers.{change};
ghost use Rattle.entries.specs.Entries.{numbers_in};
ghost use Rattle.text.specs.Lines.{each, line_of, text_of};
ghost use Rattle.text.specs.Texts.{split, line_by, line_says};
ghost use Rattle.text.specs.Inner.{pieces_behind, row_spelled, line_from, line_found};

use decimal::{LINE_FEED, Misread, SPACE};
use entries::Entry;
use entries::refusals::{Reason, Refusal};
use kinds::{Kind, words};
use table::suppliers;

// A kind's word from a place of an output on.
fn put_word(out: &mut [u8], at: usize, kind: Kind) -> usize
    requires { at + length (word_of kind) ≤ length out.old }
    ensures { (result ≡ at + length (word_of kind)) × (out.new ≡ sets out.old at (word_of kind)) }
{
    at + words::put_word(&mut out[at..], kind)
}

// A space and a number.
fn put_number(out: &mut [u8], at: usize, n: u8) -> usize
    requires { at + length (each space (decimal n ∷ [])) ≤ length out.old }
    ensures { Put out.old at (each space (decimal n ∷ [])) result out.new }
{
    let next = decimal::put_byte(out, at, SPACE);
    decimal::put_decimal(out, next, usize::from(n))
}

// An entry's numbers, a space before each.
fn put_numbers(out: &mut [u8], at: usize, e: Entry) -> usize
    requires { at + length (each space (map decimal (numbers_in e))) ≤ length out.old }
    ensures { Put out.old at (each space (map decimal (numbers_in e))) result out.new }
{
    let numbers = entries::body_size(e.kind);
    if numbers == 0 {
        return at;
    }
    let next = put_number(out, at, e.a);
    if numbers == 1 {
        return next;
    }
    put_number(out, next, e.b)
}

// An entry's line from a place of an output on.
pub(crate) fn put_line(out: &mut [u8], at: usize, e: Entry) -> usize
    requires { at + length (line_of e) ≤ length out.old }
    ensures { Put out.old at (line_of e) result out.new }
{
    let word = put_word(out, at, e.kind);
    let numbers = put_numbers(out, word, e);
    decimal::put_byte(out, numbers, LINE_FEED)
}

// An entry's line, behind that of its supplier where the one in force is another.
pub(crate) fn put_lines(out: &mut [u8], at: usize, force: u8, s: u8, e: Entry) -> usize
    requires { at + length (text_of (change force s ++ (e ∷ []))) ≤ length out.old }
    ensures { Put out.old at (text_of (change force s ++ (e ∷ []))) result out.new }
{
    if s == force {
        return put_line(out, at, e);
    }
    let next = put_line(out, at, suppliers::supplying(s));
    put_line(out, next, e)
}

// How many digits a byte's number has.
#[tactic(auto, using(decimal::proofs::Numerals::decimal_byte))]
fn digits_of(n: u8) -> usize
    ensures { (result ≡ length (decimal n)) × (result ≤ 3) }
{
    decimal::decimal_size(usize::from(n))
}

// How many bytes an entry's numbers take, a space before each.
fn numbers_size(e: Entry) -> usize
    ensures { (result ≡ length (each space (map decimal (numbers_in e)))) × (result ≤ 8) }
{
    let numbers = entries::body_size(e.kind);
    if numbers == 0 {
        return 0;
    }
    let first = digits_of(e.a) + 1;
    if numbers == 1 {
        return first;
    }
    first + (digits_of(e.b) + 1)
}

// How many bytes an entry's line has.
pub(crate) fn line_size(e: Entry) -> usize
    ensures { (result ≡ length (line_of e)) × (result ≤ 30) }
{
    words::word_size(e.kind) + numbers_size(e) + 1
}

// How many bytes it has with that of its supplier, where the one in force is another.
pub(crate) fn lines_size(force: u8, s: u8, e: Entry) -> usize
    ensures { (result ≡ length (text_of (change force s ++ (e ∷ [])))) × (result ≤ 60) }
{
    if s == force {
        return line_size(e);
    }
    line_size(suppliers::supplying(s)) + line_size(e)
}

// The first place from one on where a separator stands, or the end.
fn next_of(s: &[u8], from: usize, separator: u8) -> usize
    requires { from ≤ length s.now }
    ensures { result ≡ from + length (split separator (drop from s.now)).first }
{
    let rest = &s[from..];
    from + rest
        .iter()
        .position(|x| *x == separator)
        .unwrap_or(rest.len())
}

// One of two numbers.
fn pick(first: bool, x: u8, y: u8) -> u8
    ensures { result ≡ cond first x y }
{
    if first { x } else { y }
}

// The entry that a kind's line spells, by its numbers, each behind a space, the first of which stands where the word ends. A refusal's place is put in later.
fn numbers_at(line: &[u8], end: usize, kind: Kind) -> Result<Entry, Refusal>
    requires { end ≤ length line.now }
    ensures { said result ≡ line_by (Some kind) (pieces_behind space (drop end line.now)) }
{
    let mut at = end;
    let mut count = 0;
    let mut good = true;
    let mut a = 0;
    let mut b = 0;
    // no step of one: the place goes on by the piece that was read; and a misspelt number waits, since a large one behind it goes before
    while at < line.len() {
        let from = at + 1;
        let to = next_of(line, from, SPACE);
        let piece = &line[from..to];
        let number = decimal::number_of(piece);
        if number == Err(Misread::Large) {
            return Err(Refusal::of(Reason::UnknownWord));
        }
        let value = number.unwrap_or(0);
        a = pick(count == 0, value, a);
        b = pick(count == 1, value, b);
        good = good & number.is_ok();
        count += 1;
        at = to;
    }
    if (count == entries::body_size(kind)) & good {
        return Ok(Entry { kind, a, b });
    }
    Err(Refusal::of(Reason::Misspelt))
}

// What is said of a line, without its line feed.
fn line_of(line: &[u8]) -> Result<Entry, Refusal>
    ensures { said result ≡ line_says line.now }
{
    let end = next_of(line, 0, SPACE);
    match words::kind_of_word(&line[..end]) {
        Some(kind) => numbers_at(line, end, kind),
        None => Err(Refusal::of(Reason::UnknownWord)),
    }
}

// Whether a line begins with a row's word.
fn row_word(line: &[u8]) -> bool
    ensures { result ≡ of_row (kind_spelled (split space line.now).first) }
{
    let end = next_of(line, 0, SPACE);
    kinds::of_row(words::kind_of_word(&line[..end]))
}

// Whether the line that begins at a place of a text does.
pub(crate) fn row_line(text: &[u8], at: usize) -> bool
    requires { at ≤ length text.now }
    ensures { result ≡ row_spelled (drop at text.now) }
{
    let end = next_of(text, at, LINE_FEED);
    row_word(&text[at..end])
}

// What is said of the line that begins at a place of a text, and where the next one begins.
#[derive(Clone, Copy)]
pub struct Line {
    pub said: Result<Entry, Refusal>,
    pub next: usize,
}

// A line without its line feed is misspelt at best.
pub(crate) fn line_at(text: &[u8], at: usize) -> Line
    requires { at < length text.now }
    ensures { line_found result ≡ line_from at (split line_feed (drop at text.now)) }
{
    let end = next_of(text, at, LINE_FEED);
    let said = line_of(&text[at..end]);
    if end < text.len() {
        return Line {
            said,
            next: end + 1,
        };
    }
    match said {
        Ok(_) => Line {
            said: Err(Refusal::of(Reason::Misspelt)),
            next: end,
        },
        Err(_) => Line { said, next: end },
    }
}
