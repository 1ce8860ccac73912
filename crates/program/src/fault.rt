// What is wrong with a file that is refused, and where.
ghost use Rattle.std.specs.Prelude.{◌≡◌};

use crate::Phrase;
use crate::phrase::{numbered, words};
use ballots::Refusal;

// How many bytes the header of ballots takes.
const HEADER_LENGTH: usize = 3;

#[derive(Clone, Copy)]
pub enum Fault {
    Empty,
    Candidates {
        candidates: u8,
    },
    HeaderEnds {
        at: usize,
    },
    BallotEnds {
        at: usize,
        ballot: usize,
        ballots: u16,
        whole: usize,
    },
    // Bytes go on where the file should end.
    GoesOn {
        at: usize,
    },
    // A draw ends in half a number.
    NumberEnds {
        at: usize,
    },
    // The number at a place of a draw is no ballot's.
    NoBallot {
        place: usize,
        ballot: u16,
        ballots: u16,
    },
    DrawnBefore {
        place: usize,
        ballot: u16,
    },
    SheetEnds {
        at: usize,
    },
    // A sheet is for another number of candidates.
    OtherCandidates {
        candidates: u8,
        wanted: u8,
    },
    // A byte of the table, in the number of ballots that put one candidate over another.
    OtherCount {
        at: usize,
        from: usize,
        to: usize,
    },
    Path {
        from: u8,
        to: u8,
    },
    Cut {
        from: u8,
        to: u8,
    },
    Best,
    // What no file is refused for.
    Other,
}

impl Fault {
    ghost use Rattle.program.specs.Faults.{fault_text, ballots_fault, draw_fault, sheet_fault};

    // What is wrong with ballots that are refused.
    pub fn of_ballots(bytes: &[u8], refusal: Refusal) -> Fault
        ensures { result ≡ ballots_fault bytes.now refusal }
    {
        let at = match refusal {
            Refusal::Candidates => {
                return Fault::Candidates {
                    candidates: bytes.first().copied().unwrap_or(0),
                };
            }
            Refusal::Length { at } => at,
            _ => return Fault::Other,
        };
        let Some([candidates, low, high]) = bytes.first_chunk::<HEADER_LENGTH>() else {
            return if at == 0 {
                Fault::Empty
            } else {
                Fault::HeaderEnds { at }
            };
        };
        let ballots = u16::from_le_bytes([*low, *high]);
        let candidates = usize::from(*candidates);
        let whole = HEADER_LENGTH + usize::from(ballots) * candidates;
        if at >= whole {
            return Fault::GoesOn { at };
        }
        if candidates == 0 {
            return Fault::Other;
        }
        Fault::BallotEnds {
            at,
            ballot: at.saturating_sub(HEADER_LENGTH) / candidates,
            ballots,
            whole,
        }
    }

    // What is wrong with a draw that is refused, of so many ballots.
    pub fn of_draw(draw: &[u8], ballots: u16, refusal: Refusal) -> Fault
        ensures { result ≡ draw_fault draw.now ballots refusal }
    {
        match refusal {
            Refusal::Length { at } => Fault::NumberEnds { at },
            Refusal::Draw { place } if place < draw.len() / 2 => {
                let ballot = u16::from_le_bytes([draw[2 * place], draw[2 * place + 1]]);
                if ballot >= ballots {
                    Fault::NoBallot {
                        place,
                        ballot,
                        ballots,
                    }
                } else {
                    Fault::DrawnBefore { place, ballot }
                }
            }
            _ => Fault::Other,
        }
    }

    // What is wrong with a sheet that is refused, for ballots of so many candidates.
    pub fn of_sheet(sheet: &[u8], candidates: u8, refusal: Refusal) -> Fault
        ensures { result ≡ sheet_fault sheet.now candidates refusal }
    {
        match refusal {
            Refusal::Length { at } if at == sheet.len() => Fault::SheetEnds { at },
            Refusal::Length { at } => Fault::GoesOn { at },
            Refusal::Table { at: 0 } => Fault::OtherCandidates {
                candidates: sheet.first().copied().unwrap_or(0),
                wanted: candidates,
            },
            Refusal::Table { at } if candidates > 0 => {
                let pair = (at - 1) / 2;
                Fault::OtherCount {
                    at,
                    from: pair / usize::from(candidates),
                    to: pair % usize::from(candidates),
                }
            }
            Refusal::Path { from, to } => Fault::Path { from, to },
            Refusal::Cut { from, to } => Fault::Cut { from, to },
            Refusal::Best => Fault::Best,
            _ => Fault::Other,
        }
    }
    // What is wrong, in words.
    pub fn text(self) -> Phrase
        ensures { result.bytes ≡ fault_text self }
    {
        match self {
            Fault::Empty => words("is empty"),
            Fault::Candidates { candidates } => {
                let wanted = words(" candidates: 1 to 30 wanted");
                numbered("has ", usize::from(candidates), wanted)
            }
            Fault::HeaderEnds { at } => {
                numbered("ends at byte ", at, words(", in the header: 3 wanted"))
            }
            Fault::BallotEnds {
                at,
                ballot,
                ballots,
                whole,
            } => {
                let wanted = numbered(": ", whole, words(" wanted"));
                let of = numbered(" of ", usize::from(ballots), wanted);
                numbered("ends at byte ", at, numbered(", in ballot ", ballot, of))
            }
            Fault::GoesOn { at } => numbered("goes on at byte ", at, words(", behind its end")),
            Fault::NumberEnds { at } => numbered("ends at byte ", at, words(", in half a number")),
            Fault::NoBallot {
                place,
                ballot,
                ballots,
            } => {
                let there = words(" ballots, numbered from 0");
                let there = numbered(": there are ", usize::from(ballots), there);
                numbered(
                    "number ",
                    place,
                    numbered(" is ", usize::from(ballot), there),
                )
            }
            Fault::DrawnBefore { place, ballot } => {
                let before = words(", which was drawn before");
                numbered(
                    "number ",
                    place,
                    numbered(" is ", usize::from(ballot), before),
                )
            }
            Fault::SheetEnds { at } => numbered("ends at byte ", at, words(": more wanted")),
            Fault::OtherCandidates { candidates, wanted } => {
                let wanted = numbered(" candidates: ", usize::from(wanted), words(" wanted"));
                numbered("has ", usize::from(candidates), wanted)
            }
            Fault::OtherCount { at, from, to } => {
                let over = numbered(" over ", to, words(""));
                let put = numbered(" is wrong, in how many ballots put ", from, over);
                numbered("byte ", at, put)
            }
            Fault::Path { from, to } => {
                let none = words(" is none, or not of its strength");
                let to = numbered(" to ", usize::from(to), none);
                numbered("the path from ", usize::from(from), to)
            }
            Fault::Cut { from, to } => {
                let and = numbered(" and ", usize::from(to), words(" does not hold"));
                numbered("the cut of ", usize::from(from), and)
            }
            Fault::Best => words("the set of the best is wrong"),
            Fault::Other => words("is refused"),
        }
    }
}
