// Why something is refused, and where.
ghost use Rattle.std.specs.Prelude.{◌≡◌, Some};
ghost use Rattle.ballots.specs.Refusals.{number_of, place_of, text_of};

use crate::ROOM;
use arrayvec::ArrayString;
use itoa::Buffer;
use std::error::Error;
use std::fmt;

// No text of a refusal is longer: two words, a number of one byte and a place.
const LONGEST_TEXT: usize = 8 + 3 + 4 + 20;

// The text of a refusal, in a room that is long enough for any.
pub type RefusalText = ArrayString<LONGEST_TEXT>;

// The place of a pair of candidates is `from × PAIR_STRIDE + to`.
const PAIR_STRIDE: usize = ROOM;

// The place of the set of the best, behind that of every pair.
const BEST_PLACE: usize = PAIR_STRIDE * PAIR_STRIDE - 1;

// A slice that the caller lends to be written. The place of each in a refusal is its place here.
#[derive(Clone, Copy, PartialEq, Eq)]
pub enum Lent {
    Table,
    Strengths,
    Sheet,
    Ballots,
}

#[derive(Clone, Copy, PartialEq, Eq)]
pub enum Refusal {
    // Bytes end too early, or go on.
    Length { at: usize },
    // There are no candidates, or too many.
    Candidates,
    // A lent slice is too short.
    Short(Lent),
    // A drawn ballot does not exist, or was drawn before.
    Draw { place: usize },
    // A certificate's number of candidates or table is not that of the ballots.
    Table { at: usize },
    // A certificate's path is none, or not of the strength.
    Path { from: u8, to: u8 },
    // A certificate's cut does not part the pair, has a bit that is no candidate's, or has too
    // strong a win across.
    Cut { from: u8, to: u8 },
    // A certificate's set is not that of the best.
    Best,
}

impl Refusal {
    pub fn number(self) -> u8
        ensures { result ≡ number_of self }
    {
        match self {
            Refusal::Length { .. } => 1,
            Refusal::Candidates => 2,
            Refusal::Short(_) => 3,
            Refusal::Draw { .. } => 4,
            Refusal::Table { .. } => 5,
            Refusal::Path { .. } => 6,
            Refusal::Cut { .. } => 7,
            Refusal::Best => 8,
        }
    }

    pub fn place(self) -> usize
        ensures { result ≡ place_of self }
    {
        match self {
            Refusal::Length { at } | Refusal::Table { at } => at,
            Refusal::Candidates => 0,
            Refusal::Short(lent) => lent as usize,
            Refusal::Draw { place } => place,
            Refusal::Path { from, to } | Refusal::Cut { from, to } => {
                usize::from(from) * PAIR_STRIDE + usize::from(to)
            }
            Refusal::Best => BEST_PLACE,
        }
    }

    pub fn text(self) -> RefusalText
        ensures { result.bytes ≡ text_of self }
    {
        let mut text = ArrayString::new();
        text.push_str("refused ");
        text.push_str(Buffer::new().format(self.number()));
        text.push_str(" at ");
        text.push_str(Buffer::new().format(self.place()));
        text
    }
}

impl fmt::Display for Refusal {
    ghost output = { λ r. Some (text_of r) };

    fn fmt<W: fmt::Write>(&self, f: &mut fmt::Formatter<W>) -> fmt::Result {
        f.write_str(self.text().as_str())
    }
}

impl fmt::Debug for Refusal {
    ghost debug_output = { λ r. Some (text_of r) };

    fn fmt<W: fmt::Write>(&self, f: &mut fmt::Formatter<W>) -> fmt::Result {
        f.write_str(self.text().as_str())
    }
}

impl Error for Refusal {}
