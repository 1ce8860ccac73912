// The draw that decides between equals.
ghost use Rattle.std.specs.Prelude.{◌≡◌, ◌<◌, false, if◌then◌else◌, All, nat_lt, replicate};
ghost use Rattle.std.specs.Int.{w16, from_le_bytes};

use ballots::{BallotFile, Refusal};
use best::TieBreak;
use std::array;

// How many bytes a drawn number takes, the low byte first.
const NUMBER_LENGTH: usize = 2;

// How many numbers can be drawn.
const NUMBERS: usize = 1 << (8 * NUMBER_LENGTH);

// Ballots of a file, by their numbers, in the order in which they are drawn.
#[derive(Clone, Copy)]
pub(crate) struct Draw<'a> {
    file: BallotFile<'a>,
    numbers: &'a [[u8; NUMBER_LENGTH]],
    ghost exist: { All (λ number. from_le_bytes w16 number < file.ballots) numbers.now },
}

// Nothing is marked.
fn no_marks() -> [bool; NUMBERS]
    ensures { result ≡ replicate NUMBERS false }
{
    [false; NUMBERS]
}

impl<'a> Draw<'a> {
    ghost use Rattle.ballots.specs.Sets.{number};
    ghost use Rattle.tiebreak.specs.inner.Drawing.{DrawnFrom, before_of, TieBreakOf};

    // The draw from the ballots of a file, or why it is refused.
    pub(crate) fn read(file: BallotFile<'a>, bytes: &'a [u8]) -> Result<Draw<'a>, Refusal>
        ensures { DrawnFrom file.entry bytes.now result }
    {
        let (numbers, rest) = bytes.as_chunks::<NUMBER_LENGTH>();
        if !rest.is_empty() {
            return Err(Refusal::Length { at: bytes.len() });
        }
        let mut drawn = no_marks();
        for (place, number) in numbers.iter().enumerate() {
            let ballot = u16::from_le_bytes(*number);
            if ballot >= file.ballots || drawn[usize::from(ballot)] {
                return Err(Refusal::Draw { place });
            }
            drawn[usize::from(ballot)] = true;
        }
        Ok(Draw { file, numbers })
    }

    // Whether x is before y: by the first drawn ballot that does not put them equal, and by number where none does.
    fn puts_before(&self, x: usize, y: usize) -> bool
        ensures { result ≡ before_of self.now x y }
    {
        for number in self.numbers {
            let number = usize::from(u16::from_le_bytes(*number));
            let ballot = self.file.get(number).unwrap();
            let is_over = ballot.over(x, y);
            if is_over || ballot.over(y, x) {
                return is_over;
            }
        }
        x < y
    }

    // How many candidates are before x; 0 where x is no candidate.
    fn key(&self, x: usize) -> u8
        ensures { let v = self.now.file.candidates in
            result ≡ if nat_lt x v then number (λ y. before_of self.now y x) v else 0 }
    {
        let candidates = self.file.candidates;
        if x >= candidates {
            return 0;
        }
        (0..candidates).filter(|y| self.puts_before(*y, x)).count() as u8
    }

    // The tie-break order that the draw makes.
    pub(crate) fn tie_break(&self) -> TieBreak
        ensures { TieBreakOf self.now result }
    {
        TieBreak {
            keys: array::from_fn(|x| self.key(x)),
        }
    }
}
