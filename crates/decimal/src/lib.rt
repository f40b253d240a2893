// Numbers in decimal, written and read.
#![tactic(auto)]

ghost use Rattle.std.specs.Prelude.{◌≡◌, cond, true, ◌∷◌, [], ◌+◌, ◌-◌, ◌*◌, ◌≤◌, ◌<◌, length, ltb};
ghost use Rattle.entries.specs.Entries.{number_limit};
ghost use Rattle.decimal.specs.Decimal.{base, zero_digit, is_digit, decimal, unpadded, number_said};
ghost use Rattle.decimal.specs.Put.{Stores};

const BASE: usize = 10;

pub const SPACE: u8 = b' ';

pub const LINE_FEED: u8 = b'\n';

// One byte at a place of an output, where it has that place; the place behind what was stored comes back. An output and a place go together through all that
// write behind one another; `Put` and `Stores` say what both are then in one fact, so no struct of the two would say less.
pub fn put_byte(out: &mut [u8], at: usize, byte: u8) -> usize
    ensures { Stores out.old at (byte ∷ []) result out.new }
{
    if at < out.len() {
        out[at] = byte;
        return at + 1;
    }
    at
}

// A number's digits from a place of an output on, as many as it has places for.
pub fn put_decimal(out: &mut [u8], at: usize, n: usize) -> usize
    ensures { Stores out.old at (decimal n) result out.new }
{
    if n < BASE {
        return put_byte(out, at, b'0' + n as u8);
    }
    let next = put_decimal(out, at, n / BASE);
    put_byte(out, next, b'0' + (n % BASE) as u8)
}

// How many digits a number has: one, and one more for each time that it can be divided.
#[tactic(auto, using(crate::proofs::Numerals::decimal_longer, crate::proofs::Numerals::decimal_one, crate::proofs::Numerals::decimal_short))]
pub fn decimal_size(n: usize) -> usize
    ensures { (result ≡ length (decimal n)) × (result ≤ 20) }
{
    let mut size = 1;
    let mut rest = n;
    // a `while`, since each step divides
    while BASE <= rest {
        rest /= BASE;
        size += 1;
    }
    size
}

// Why a piece of a line is no number that a byte can be: its digits are a number above 255; or it has none, another byte, or a zero before others.
#[derive(Clone, Copy, Debug, PartialEq, Eq)]
pub enum Misread {
    Large,
    Misspelt,
}

// A value with a digit more; one above 255 stays as it is.
fn grown(v: usize, x: u8) -> usize
    requires { is_digit x ≡ true }
    ensures { result ≡ cond (ltb v number_limit) (v * base + (x - zero_digit)) v }
{
    if v < entries::NUMBERS {
        return v * BASE + usize::from(x - b'0');
    }
    v
}

// Whether a piece of digits has some, and no zero before others.
fn is_unpadded(piece: &[u8]) -> bool
    ensures { result ≡ unpadded piece.now }
{
    if piece.len() < 2 {
        return piece.len() == 1;
    }
    piece[0] != b'0'
}

// A piece as a number.
#[tactic(auto, using(crate::proofs::Numerals::reading))]
pub fn number_of(piece: &[u8]) -> Result<u8, Misread>
    ensures { result ≡ number_said piece.now }
{
    let mut v = 0;
    for x in piece {
        if !x.is_ascii_digit() {
            return Err(Misread::Misspelt);
        }
        v = grown(v, *x);
    }
    if entries::NUMBERS <= v {
        return Err(Misread::Large);
    }
    if is_unpadded(piece) {
        Ok(v as u8)
    } else {
        Err(Misread::Misspelt)
    }
}
