// Random files with a clone set, of which some are struck.
ghost use Rattle.std.specs.Prelude.{◌*◌, ◌≤◌};
ghost use Rattle.slow_count.specs.declared.table.TheConstants.{MOST};

use crate::failure::{Disagreement, Failure};
use crate::random::{MOST_LEVELS, Random, Ranks};
use ballot_files::Votes;
use ballots::{Bits, CandidateSet};
use best::best_of_both;
use slow_count::MOST;
use std::alloc::{AllocError, Global};

// How many files with a clone set are tried.
const FILES: u16 = 5000;

// How far two levels are apart, so that the clones have room between them.
const APART: u8 = 4;

// The number of candidates, the clone set, and the set of those that stay: all others, and one of the clone set at
// least.
#[derive(Clone, Copy)]
struct Clones {
    candidates: u8,
    members: CandidateSet,
    stay: CandidateSet,
    ghost few: { candidates ≤ MOST },
}

// A file, and the file that it is to become when all that do not stay are struck.
#[derive(Drop)]
struct Files {
    all: Vec<u8>,
    struck: Vec<u8>,
}

// The set of one candidate, as bits.
fn only(x: u8) -> Bits {
    Bits::rotate_left(1, u32::from(x))
}

// One of the clone set stays, another is struck, and of the rest some are in the set and some of those stay.
fn draw_clones(random: &mut Random) -> Clones {
    let candidates = random.below(MOST as u8 - 1) + 2;
    let one = random.below(candidates);
    let other = if one == 0 { 1 } else { random.below(one) };
    let members = random.set() & random.set() | only(one) | only(other);
    let stay = (!members | random.set() | only(one)) & !only(other);
    Clones {
        candidates,
        members: CandidateSet::from_bits(members),
        stay: CandidateSet::from_bits(stay),
    }
}

// A rank close to the level, with no other level between; close to a blank are blanks and the last ranks.
fn close_to(random: &mut Random, level: u8) -> u8
    requires { level ≤ MOST_LEVELS * APART }
{
    let near = random.below(APART);
    if level == 0 && near > 0 {
        return 255 - near;
    }
    level + near
}

impl Clones {
    // How many stay.
    fn staying(&self) -> u8 {
        (0..self.candidates)
            .filter(|x| self.stay.contains(usize::from(*x)))
            .count() as u8
    }

    // Whether one of the others has this rank on the ballot.
    fn is_shared(&self, ballot: &[u8; MOST], rank: u8) -> bool {
        ballot
            .iter()
            .enumerate()
            .take(usize::from(self.candidates))
            .any(|(x, other)| !self.members.contains(x) && *other == rank)
    }

    // A ballot on which the clones stand together: all level with some other candidate, or close to each other with
    // nobody between.
    fn draw_ballot(&self, random: &mut Random, ranks: Ranks) -> [u8; MOST] {
        let mut ballot: [u8; MOST] = std::array::from_fn(|_| random.rank(ranks) * APART);
        let level = random.rank(ranks) * APART;
        let shared = self.is_shared(&ballot, level);
        for (x, rank) in ballot.iter_mut().enumerate() {
            if self.members.contains(x) {
                *rank = if shared {
                    level
                } else {
                    close_to(random, level)
                };
            }
        }
        ballot
    }

    // A set of those that stay, who are numbered anew in the struck file, by their numbers in the file.
    fn numbered_back(&self, struck: CandidateSet) -> Bits {
        (0..self.candidates)
            .filter(|x| self.stay.contains(usize::from(*x)))
            .enumerate()
            .filter(|(number, _)| struck.contains(*number))
            .fold(0, |set, (_, x)| set | only(x))
    }

    // Whether the best of the file and of the struck file are the same of the others, and of the clone set as a whole.
    fn same_best(&self, all: CandidateSet, struck: CandidateSet) -> bool {
        let all = all.bits();
        let kept = self.numbered_back(struck);
        let members = self.members.bits();
        all & !members == kept & !members && (all & members != 0) == (kept & members != 0)
    }

    // The ranks of those that stay.
    fn staying_ranks(&self, heap: Global, ballot: &[u8; MOST]) -> Result<Vec<u8>, AllocError> {
        ballot
            .iter()
            .take(usize::from(self.candidates))
            .enumerate()
            .filter(|(x, _)| self.stay.contains(*x))
            .map(|(_, rank)| *rank)
            .collect(heap)
    }

    fn draw_files(&self, random: &mut Random) -> Result<Files, AllocError> {
        let ballots = random.ballots();
        let ranks = random.ranks();
        let mut all = Votes::new(random.heap, self.candidates);
        let mut struck = Votes::new(random.heap, self.staying());
        for _ in 0..ballots {
            let ballot = self.draw_ballot(random, ranks);
            all = all.ballot(&ballot[..usize::from(self.candidates)])?;
            struck = struck.ballot(&self.staying_ranks(random.heap, &ballot)?)?;
        }
        Ok(Files {
            all: all.bytes()?,
            struck: struck.bytes()?,
        })
    }
}

// Whether the struck file is as it is to become, with nothing written behind it, and the best of both files agree.
fn agree(heap: Global, clones: &Clones, files: &Files) -> Result<bool, AllocError> {
    let mut struck = vec![in heap; 0u8; files.all.len()]?;
    let Ok(both) = best_of_both(&files.all, clones.stay, &mut struck) else {
        return Ok(false);
    };
    Ok(
        struck.starts_with(&files.struck)
            && struck
                .iter()
                .skip(files.struck.len())
                .all(|byte| *byte == 0)
            && clones.same_best(both.all, both.kept),
    )
}

// Tries one random file.
fn trial(random: &mut Random) -> Result<(), Failure> {
    let clones = draw_clones(random);
    let files = clones.draw_files(random)?;
    if agree(random.heap, &clones, &files)? {
        return Ok(());
    }
    Err(Failure::Trial {
        what: Disagreement::Striking,
        file: files.all,
        beside: files.struck,
    })
}

pub fn clone_files(rt: &HostRuntime, random: &mut Random) -> Result<(), Failure> {
    for _ in 0..FILES {
        trial(random)?;
    }
    println!(rt; "clone files {FILES}: struck files agree, best agrees")?;
    Ok(())
}
