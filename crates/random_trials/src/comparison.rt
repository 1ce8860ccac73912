// The count beside the slow count: strengths, the best, the order, the paths and the cuts of random files.
use crate::failure::{Disagreement, Failure};
use crate::random::Random;
use crate::sheets::Verdicts;
use ballots::BallotFile;
use best::TieBreak;
use pairwise::Pairwise;
use paths::Strengths;
use slow_count::{MOST, SlowCount, Tie, passes_twice};
use std::io;

// How many random files are tried.
const FILES: u16 = 20000;

// There is a path exactly where it should be, with no candidate twice.
fn path_agrees(strengths: &Strengths, slow: &SlowCount<'_>, x: usize, y: usize) -> bool {
    let path = strengths.path(x, y);
    slow.is_path(x, y, path.as_slice()) && !passes_twice(path.as_slice())
}

// There is a cut for two different candidates, and for nobody else.
fn cut_agrees(strengths: &Strengths, slow: &SlowCount<'_>, x: usize, y: usize) -> bool {
    let set = strengths.cut(x, y).bits();
    let candidates = usize::from(slow.file.candidates());
    if x == y || x >= candidates || y >= candidates {
        return set == 0;
    }
    slow.is_cut(x, y, u64::from(set))
}

fn orders_agree(strengths: &Strengths, slow: &SlowCount<'_>, tie_break: &TieBreak) -> bool {
    let counted = best::full_order(strengths, tie_break);
    let expected = slow.order(Tie::Keys(&tie_break.keys));
    counted.as_slice() == expected.as_slice()
}

// Whether the strengths, paths and cuts of all pairs and the best agree.
fn compare_answers(strengths: &Strengths, slow: &SlowCount<'_>) -> Result<(), Disagreement> {
    for x in 0..MOST {
        for y in 0..MOST {
            if u32::from(strengths.at(x, y)) != slow.strengths.at(x, y) {
                return Err(Disagreement::Strengths);
            }
            if !path_agrees(strengths, slow, x, y) {
                return Err(Disagreement::Paths);
            }
            if !cut_agrees(strengths, slow, x, y) {
                return Err(Disagreement::Cuts);
            }
        }
    }
    if !slow.is_best_set(u64::from(best::best(strengths).bits())) {
        return Err(Disagreement::Best);
    }
    Ok(())
}

// The same of the order too, by number and by another tie-break.
fn compare(slow: &SlowCount<'_>, other: &TieBreak) -> Result<(), Disagreement> {
    let file = BallotFile::read(slow.file.bytes).map_err(|_| Disagreement::Refused)?;
    let strengths = Strengths::of(&Pairwise::of(file).wins());
    if !orders_agree(&strengths, slow, &TieBreak::by_number()) {
        return Err(Disagreement::Orders);
    }
    if !orders_agree(&strengths, slow, other) {
        return Err(Disagreement::TieBreakOrders);
    }
    compare_answers(&strengths, slow)
}

// What came of the random files: how many have a strongest path over others, and the verdicts on damaged certificates.
#[derive(Clone, Copy, Default)]
struct Tally {
    over_others: u16,
    verdicts: Verdicts,
}

impl Tally {
    // Tries one random file.
    fn trial(&mut self, random: &mut Random) -> Result<(), Failure> {
        let file = random.votes()?.bytes()?;
        let slow = SlowCount::of(&file);
        if let Err(what) = compare(&slow, &random.tie_break()) {
            let beside = Vec::new(random.heap);
            return Err(Failure::Trial { what, file, beside });
        }
        if let Some(beside) = self.verdicts.wrong_sheet(random, &slow)? {
            let what = Disagreement::Sheets;
            return Err(Failure::Trial { what, file, beside });
        }
        if slow.goes_over_others() {
            self.over_others = self.over_others.saturating_add(1);
        }
        Ok(())
    }

    fn print(&self, rt: &HostRuntime) -> io::Result<()> {
        let over_others = self.over_others;
        let Verdicts {
            refused,
            accepted,
            twice,
        } = self.verdicts;
        let damaged = refused.saturating_add(accepted);
        println!(rt;
            "random files {FILES}, {over_others} with a strongest path over others: strengths agree, best agrees, order agrees, paths agree, cuts agree, sheets agree"
        )?;
        println!(rt;
            "damaged sheets {damaged}: {refused} refused, {accepted} still as said and accepted, {twice} of them with a candidate twice on a path"
        )
    }
}

pub fn random_files(rt: &HostRuntime, random: &mut Random) -> Result<(), Failure> {
    let mut tally = Tally::default();
    for _ in 0..FILES {
        tally.trial(random)?;
    }
    tally.print(rt)?;
    Ok(())
}
