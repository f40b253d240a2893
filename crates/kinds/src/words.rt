// Each kind's word in the text of a table, where it stands among the letters of all, and the kind that a word spells.
ghost use Rattle.std.specs.Prelude.{◌≡◌, ◌≤◌, ◌<◌, length, IsTrue};
ghost use Rattle.std.proofs.lemmas.List.Edits.{sets};
ghost use Rattle.kinds.specs.Words.{word_of, same, kind_spelled, longest, starts, Stands, Guesses};

use crate::{ConstraintKind, Kind, QuestionKind, RowKind};
use belnap::Decision;
use belnap::orders::Order;
use operators::{OneRow, TwoRow};

// How many letters the longest has.
const LONGEST: usize = 21;

// The kinds' words, one behind the other; numbers say where each stands. A literal for each would become a table of pointers, and these must be fitted to
// where a program is loaded, which nobody does for one that has no C library.
pub const LETTERS: [u8; 285] =
    *b"unspecifieddenygrantconflictdeny-ifgrant-ifnegationconflationclosed-defaultopen-defaulttruth-meettruth-joinknowledge-meetknowledge-join\
    implicationguardoverride-unspecifiedoverride-denyoverride-grantoverride-conflicttruth-at-or-belowknowledge-at-or-belownotbothnever-both\
    only-ifsupplier";

// Where a kind's word starts among these letters, and where it ends: `&LETTERS[start..end]` is the word itself, for as long as the program runs and with no
// copy made, as the check finds where the definition `word_of` is unfolded: `#[tactic(auto, unfolding(kinds::specs::Words::word_of))]` at the function that
// borrows it. No public call hands the word out, since of where a constant stands in memory nothing can be promised.
#[tactic(auto, unfolding(crate::specs::Words::word_of))]
pub fn place_of(kind: Kind) -> (usize, usize)
    ensures { IsTrue (starts kind result.0) × Stands kind result.0 result.1 }
{
    match kind {
        Kind::Row(row) => match row {
            RowKind::Always(v) => match v {
                Decision::U => (0, 11),
                Decision::D => (11, 15),
                Decision::G => (15, 20),
                Decision::C => (20, 28),
            },
            RowKind::DenyIf => (28, 35),
            RowKind::GrantIf => (35, 43),
            RowKind::One(op) => match op {
                OneRow::Negation => (43, 51),
                OneRow::Conflation => (51, 61),
                OneRow::ClosedDefault => (61, 75),
                OneRow::OpenDefault => (75, 87),
            },
            RowKind::Two(op) => match op {
                TwoRow::TruthMeet => (87, 97),
                TwoRow::TruthJoin => (97, 107),
                TwoRow::KnowledgeMeet => (107, 121),
                TwoRow::KnowledgeJoin => (121, 135),
                TwoRow::Implication => (135, 146),
                TwoRow::Guard => (146, 151),
                TwoRow::OverrideU => (151, 171),
                TwoRow::OverrideD => (171, 184),
                TwoRow::OverrideG => (184, 198),
                TwoRow::OverrideC => (198, 215),
            },
        },
        Kind::Question(question) => match question {
            QuestionKind::Compare(order) => match order {
                Order::Truth => (215, 232),
                Order::Knowledge => (232, 253),
            },
            QuestionKind::Not => (253, 256),
            QuestionKind::Both => (256, 260),
        },
        Kind::Constraint(constraint) => match constraint {
            ConstraintKind::NeverBoth => (260, 270),
            ConstraintKind::OnlyIf => (270, 277),
        },
        Kind::Supplier => (277, 285),
    }
}

// A kind's word, as it stands among the letters. Where in memory that is no promise could say, so other crates are given its place and its size, and have it
// written. It is the crate's, and not this file's alone, for proofs/Unique.antt, which names its promise.
#[tactic(auto, unfolding(crate::specs::Words::word_of))]
pub(crate) fn word_of(kind: Kind) -> &'static [u8]
    ensures { result.now ≡ word_of kind }
{
    let (start, end) = place_of(kind);
    &LETTERS[start..end]
}

// How many letters a kind's word has.
pub fn word_size(kind: Kind) -> usize
    ensures { result ≡ length (word_of kind) }
{
    word_of(kind).len()
}

// A kind's word, stored onto the front of a lent output, as much of it as there are places for; its length comes back either way. Byte by byte, since
// `copy_from_slice` of a word calls `memmove`, a name that the library for C would need from outside for this alone.
pub fn put_word(out: &mut [u8], kind: Kind) -> usize
    ensures { (result ≡ length (word_of kind)) × (out.new ≡ sets out.old 0 (word_of kind)) }
{
    let word = word_of(kind);
    for (i, x) in word.iter().enumerate() {
        if i < out.len() {
            out[i] = *x;
        }
    }
    word.len()
}

// By a number made of a word's ends and length: the byte of the one kind that it may spell, for speed: one guess in place of a comparison with every word.
const GUESSES: [u8; 64] = [
    0x00, 0x00, 0x01, 0x00, 0x00, 0x00, 0x00, 0x11, 0x00, 0x00, 0x3b, 0x00, 0x00, 0x00, 0x02, 0x03,
    0x00, 0x21, 0x00, 0x00, 0x00, 0x33, 0x43, 0x00, 0x41, 0x00, 0x00, 0x60, 0x00, 0x00, 0x00, 0x00,
    0x00, 0x32, 0x00, 0x42, 0x00, 0x00, 0x31, 0x23, 0x51, 0x40, 0x00, 0x00, 0x00, 0x00, 0x35, 0x00,
    0x00, 0x10, 0x30, 0x00, 0x00, 0x3a, 0x34, 0x00, 0x39, 0x22, 0x20, 0x00, 0x50, 0x00, 0x00, 0x38,
];

fn guess(w: &[u8]) -> u8
    requires { (0 < length w.now) × (length w.now ≤ longest) }
    ensures { Guesses w.now result }
{
    let first = usize::from(w[0]);
    let last = usize::from(w[w.len() - 1]);
    let i = (5 * first + 2 * last + 7 * w.len()) % 64;
    GUESSES[i]
}

// Whether a byte string is a kind's word.
#[tactic(auto, using(crate::proofs::Spelling::same_pointwise))]
fn spells(w: &[u8], kind: Kind) -> bool
    ensures { result ≡ same w.now (word_of kind) }
{
    w == word_of(kind)
}

// The kind that a word spells: none but the one guessed can be it.
#[tactic(auto, using(crate::proofs::Spelling::guessing))]
pub fn kind_of_word(w: &[u8]) -> Option<Kind>
    ensures { result ≡ kind_spelled w.now }
{
    if w.is_empty() || LONGEST < w.len() {
        return None;
    }
    match crate::kind_of(guess(w)) {
        Some(kind) if spells(w, kind) => Some(kind),
        _ => None,
    }
}

#[cfg(test)]
mod tests {
    use super::*;

    // What the promise of `place_of` means: the first kind's word begins the letters, and the last's ends them.
    #[test]
    fn words_stand_at_their_places(rt: HostRuntime) {
        let words: [(u8, usize, &[u8]); 4] = [
            (0x00, 0, b"unspecified"),
            (0x01, 11, b"deny"),
            (0x30, 87, b"truth-meet"),
            (0x60, 277, b"supplier"),
        ];
        for (byte, at, word) in words {
            let place = crate::kind_of(byte).map(place_of);
            assert_eq!(rt;
                place,
                Some((at, at + word.len())),
                "the place of byte {byte}"
            );
            assert_eq!(rt;
                LETTERS.get(at..at + word.len()),
                Some(word),
                "the word of byte {byte}"
            );
        }
    }
}
