// The whole count of random files, with random draws that decide between equals, beside the slow count.
use crate::failure::{Disagreement, Failure};
use crate::random::Random;
use crate::sheets::{Passing, ROOM, is_as_said};
use pairwise::CELLS;
use slow_count::{Draw, SlowCount, Tie};
use std::alloc::AllocError;
use std::io;
use tiebreak::{Outcome, count};

// How many files are tried.
const FILES: u16 = 5000;

// How many draws were refused, and how many made another order than the candidates' numbers.
#[derive(Clone, Copy, Default)]
struct Tally {
    refused: u16,
    decisive: u16,
}

// Some of so many ballots, none of them drawn twice; now and then one that is, or one past the last, or half a number.
fn draw(random: &mut Random, ballots: u16) -> Result<Vec<u8>, AllocError> {
    let mut numbers = Vec::new(random.heap);
    for _ in 0..random.below(12) {
        let ballot = random.place(usize::from(ballots) + 1) as u16;
        let number = ballot.to_le_bytes();
        let again = numbers.chunks(2).any(|other| other == number.as_slice());
        if ballot < ballots && !again || random.once_in(40) {
            numbers.extend_from_slice(&number)?;
        }
    }
    if random.once_in(40) {
        numbers.push(0)?;
    }
    Ok(numbers)
}

// Whether the outcome is that of the slow count, and the certificate as it should be.
fn agrees(slow: &SlowCount<'_>, draw: Draw<'_>, outcome: &Outcome, sheet: &[u8]) -> bool {
    let written = sheet.get(..outcome.length).unwrap_or(&[]);
    outcome.order.as_slice() == slow.order(Tie::Drawn(draw)).as_slice()
        && slow.is_best_set(u64::from(outcome.best.bits()))
        && is_as_said(slow, written, Passing::Once)
}

impl Tally {
    // Whether the count agrees with the slow count by this draw: it is refused exactly if it is none.
    fn agrees(
        &mut self,
        random: &Random,
        slow: &SlowCount<'_>,
        numbers: &[u8],
    ) -> Result<bool, AllocError> {
        let mut table = [0u16; CELLS];
        let mut strengths = [0u16; CELLS];
        let mut sheet = vec![in random.heap; 0u8; ROOM]?;
        let draw = Draw { numbers };
        match count(
            slow.file.bytes,
            numbers,
            &mut table,
            &mut strengths,
            &mut sheet,
        ) {
            Ok(outcome) => {
                let by_number = slow.order(Tie::Keys(&[]));
                let decisive = outcome.order.as_slice() != by_number.as_slice();
                self.decisive = self.decisive.saturating_add(u16::from(decisive));
                Ok(draw.is_from(slow.file) && agrees(slow, draw, &outcome, &sheet))
            }
            Err(_) => {
                self.refused = self.refused.saturating_add(1);
                Ok(!draw.is_from(slow.file))
            }
        }
    }

    // Tries one random file.
    fn trial(&mut self, random: &mut Random) -> Result<(), Failure> {
        let votes = random.votes()?;
        let file = votes.bytes()?;
        let beside = draw(random, votes.ballots)?;
        if self.agrees(random, &SlowCount::of(&file), &beside)? {
            return Ok(());
        }
        let what = Disagreement::Draws;
        Err(Failure::Trial { what, file, beside })
    }

    fn print(self, rt: &HostRuntime) -> io::Result<()> {
        let Tally { refused, decisive } = self;
        println!(rt;
            "drawn files {FILES}, {refused} with a draw that is refused, {decisive} with one that decides: orders agree, best agrees, sheets agree"
        )
    }
}

pub fn drawn_files(rt: &HostRuntime, random: &mut Random) -> Result<(), Failure> {
    let mut tally = Tally::default();
    for _ in 0..FILES {
        tally.trial(random)?;
    }
    tally.print(rt)?;
    Ok(())
}
