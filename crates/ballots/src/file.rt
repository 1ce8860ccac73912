// The file of a vote: a header, and one ballot after the other.
ghost use Rattle.std.specs.Prelude.{◌≡◌, ◌+◌, ◌*◌, ◌≤◌, length, None};
ghost use Rattle.ballots.specs.Format.{most_candidates, most_ballots, header_length, candidates_in, ballots_in};
ghost use Rattle.ballots.specs.Refusals.{refusal};

use crate::{Ballot, Refusal};

// The greatest number of candidates.
pub const MOST_CANDIDATES: usize = 30;

// The greatest number of ballots.
pub const MOST_BALLOTS: u16 = u16::MAX;

// How many bytes the header takes.
pub(crate) const HEADER_LENGTH: usize = 3;

// Bytes that are accepted, with the numbers of candidates and of ballots that their header says.
#[derive(Clone, Copy)]
pub struct BallotFile<'a> {
    pub candidates: usize,
    pub ballots: u16,
    pub bytes: &'a [u8],
    ghost accepted: { refusal bytes.now ≡ None },
    ghost said_candidates: { candidates ≡ candidates_in bytes.now },
    ghost said_ballots: { ballots ≡ ballots_in bytes.now },
    ghost some: { 1 ≤ candidates },
    ghost few: { candidates ≤ most_candidates },
    ghost counted: { ballots ≤ most_ballots },
    ghost whole: { length bytes.now ≡ header_length + ballots * candidates },
}

// The ballots of a file that are still to come.
#[derive(Clone, Drop)]
pub struct Ballots<'a> {
    file: BallotFile<'a>,
    next: usize,
}

impl<'a> BallotFile<'a> {
    ghost use Rattle.std.specs.Prelude.{Some, IfOk, IfErr, MatchOption};
    ghost use Rattle.ballots.specs.Files.{BallotAt, ballots_from, ballots_left};

    // The file that the bytes are, or why they are refused.
    pub fn read(bytes: &'a [u8]) -> Result<BallotFile<'a>, Refusal>
        ensures file { IfOk result (λ file. file.bytes.now ≡ bytes.now) }
        ensures refused { IfErr result (λ e. refusal bytes.now ≡ Some e) }
    {
        let length = bytes.len();
        let Some(first) = bytes.first() else {
            return Err(Refusal::Length { at: 0 });
        };
        let candidates = usize::from(*first);
        if !(1..=MOST_CANDIDATES).contains(&candidates) {
            return Err(Refusal::Candidates);
        }
        let Some([_, low, high]) = bytes.first_chunk::<HEADER_LENGTH>() else {
            return Err(Refusal::Length { at: length });
        };
        let ballots = u16::from_le_bytes([*low, *high]);
        let whole = HEADER_LENGTH + usize::from(ballots) * candidates;
        if length < whole {
            return Err(Refusal::Length { at: length });
        }
        if length > whole {
            return Err(Refusal::Length { at: whole });
        }
        Ok(BallotFile {
            candidates,
            ballots,
            bytes,
        })
    }

    // Ballot i; nothing where there is no such ballot.
    pub fn get(self, i: usize) -> Option<Ballot<'a>>
        ensures { MatchOption result (ballots_in self.entry.bytes.now ≤ i)
            (λ ballot. BallotAt self.entry.bytes.now i ballot.ranks.now) }
    {
        if i >= usize::from(self.ballots) {
            return None;
        }
        let start = HEADER_LENGTH + i * self.candidates;
        Some(Ballot {
            ranks: &self.bytes[start..start + self.candidates],
        })
    }

    // The ballots, first to last.
    pub fn iter(self) -> Ballots<'a>
        ensures { ballots_left result ≡ ballots_from self.entry.bytes.now 0 }
    {
        Ballots {
            file: self,
            next: 0,
        }
    }
}

impl<'a> Iterator for Ballots<'a> {
    ghost use Rattle.std.specs.Iterator.{YieldsFirstBy, item_count};
    ghost use Rattle.ballots.specs.Files.{ballots_left};

    type Item = Ballot<'a>;

    ghost next_gives = { YieldsFirstBy (λ ballot. ballot.ranks.now) ballots_left };

    ghost remaining = { item_count ballots_left };

    fn next(&mut self) -> Option<Ballot<'a>> {
        let ballot = self.file.get(self.next)?;
        self.next += 1;
        Some(ballot)
    }
}
