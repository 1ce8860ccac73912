// Worked counts: the best, the strengths by rows and the order of small files.
use crate::votes::{CIRCLE, CLONES, Vote};
use ballots::{BallotFile, CandidateSet};
use best::{Order, TieBreak};
use pairwise::Pairwise;
use paths::Strengths;

// Votes by their names.
const WORKED: [(&str, Vote); 7] = [
    ("A", CIRCLE),
    ("B", Vote(2, &[(3, &[1, 2]), (3, &[2, 1])])),
    (
        "C",
        Vote(3, &[(5, &[1, 2, 2]), (4, &[2, 1, 1]), (1, &[2, 2, 1])]),
    ),
    (
        "D",
        Vote(
            4,
            &[(3, &[1, 2, 3, 4]), (3, &[4, 1, 2, 3]), (3, &[3, 4, 1, 2])],
        ),
    ),
    ("E", Vote(3, &[])),
    ("F", CLONES),
    (
        "G",
        Vote(
            4,
            &[(5, &[1, 2, 3, 4]), (4, &[2, 1, 4, 3]), (2, &[3, 1, 2, 4])],
        ),
    ),
];

fn print_set(rt: &HostRuntime, set: CandidateSet) -> anyhow::Result<()> {
    for x in set.iter() {
        print!(rt; " {x}")?;
    }
    Ok(())
}

fn print_order(rt: &HostRuntime, order: &Order) -> anyhow::Result<()> {
    for x in order.as_slice() {
        print!(rt; " {x}")?;
    }
    Ok(())
}

fn print_rows(rt: &HostRuntime, strengths: &Strengths) -> anyhow::Result<()> {
    let v = strengths.wins.candidates;
    let mut table = vec![in rt.alloc(); 0u16; v * v]?;
    match strengths.copy_to(&mut table) {
        Ok(()) => print!(rt; "{table:?}")?,
        Err(refusal) => print!(rt; "{refusal}")?,
    }
    Ok(())
}

fn print_outcome(rt: &HostRuntime, strengths: &Strengths) -> anyhow::Result<()> {
    print!(rt; "best")?;
    print_set(rt, best::best(strengths))?;
    print!(rt; ", order")?;
    print_order(rt, &best::full_order(strengths, &TieBreak::by_number()))?;
    print!(rt; ", s ")?;
    print_rows(rt, strengths)?;
    println!(rt; "")?;
    Ok(())
}

fn print_worked(rt: &HostRuntime, name: &str, vote: Vote) -> anyhow::Result<()> {
    let file = vote.file(rt.alloc())?;
    print!(rt; "{name}: ")?;
    match BallotFile::read(&file) {
        Ok(file) => print_outcome(rt, &Strengths::of(&Pairwise::of(file).wins())),
        Err(refusal) => {
            println!(rt; "{refusal}")?;
            Ok(())
        }
    }
}

pub fn all(rt: &HostRuntime) -> anyhow::Result<()> {
    for (name, vote) in WORKED {
        print_worked(rt, name, vote)?;
    }
    Ok(())
}
