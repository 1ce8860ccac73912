// Files that are refused, and the tables of those that are counted.
use crate::votes::{CIRCLE, Vote};
use ballot_files::Votes;
use ballots::{BallotFile, MOST_CANDIDATES};
use pairwise::Pairwise;

// Votes that are counted, by their names.
const COUNTED: [(&str, Vote); 6] = [
    ("no ballots", Vote(3, &[])),
    ("one candidate", Vote(1, &[(1, &[1]), (1, &[0])])),
    ("a circle", CIRCLE),
    ("all blank", Vote(2, &[(3, &[0, 0])])),
    ("one blank", Vote(2, &[(1, &[0, 255])])),
    ("equal ranks", Vote(3, &[(1, &[7, 7, 9])])),
];

fn print_table(rt: &HostRuntime, name: &str, pairwise: &Pairwise) -> anyhow::Result<()> {
    let v = pairwise.counts.candidates;
    let ballots = pairwise.ballots;
    let mut table = vec![in rt.alloc(); 0u16; v * v]?;
    match pairwise.copy_to(&mut table) {
        Ok(()) => println!(rt; "{name}: papers {ballots}, n {table:?}")?,
        Err(refusal) => println!(rt; "{name}: {refusal}")?,
    }
    Ok(())
}

fn print_count(rt: &HostRuntime, name: &str, bytes: &[u8]) -> anyhow::Result<()> {
    match BallotFile::read(bytes) {
        Ok(file) => print_table(rt, name, &Pairwise::of(file)),
        Err(refusal) => {
            println!(rt; "{name}: {refusal}")?;
            Ok(())
        }
    }
}

// A vote's file, cut short.
fn print_cut(rt: &HostRuntime, name: &str, vote: Vote, length: usize) -> anyhow::Result<()> {
    let file = vote.file(rt.alloc())?;
    print_count(rt, name, file.get(..length).unwrap_or(&file))
}

// Files that are not as they should be.
pub fn refused(rt: &HostRuntime) -> anyhow::Result<()> {
    print_cut(rt, "no byte", CIRCLE, 0)?;
    for (name, candidates) in [("no candidates", 0), ("31 candidates", 31)] {
        let bytes = Votes::new(rt.alloc(), candidates).bytes()?;
        print_count(rt, name, &bytes)?;
    }
    print_cut(rt, "one byte", CIRCLE, 1)?;
    print_cut(rt, "two bytes", CIRCLE, 2)?;
    print_cut(rt, "a byte missing", CIRCLE, 29)?;
    let long = Votes::new(rt.alloc(), 2).ballot(&[1, 2, 1])?;
    print_count(rt, "a byte too many", &long.bytes()?)
}

// Files that are.
pub fn counted(rt: &HostRuntime) -> anyhow::Result<()> {
    for (name, vote) in COUNTED {
        print_count(rt, name, &vote.file(rt.alloc())?)?;
    }
    Ok(())
}

// As many ballots as there can be, of as many candidates, all ranked in the order of their numbers.
pub fn greatest(rt: &HostRuntime) -> anyhow::Result<()> {
    let ranks: [u8; MOST_CANDIDATES] = std::array::from_fn(|x| x as u8 + 1);
    let votes = Votes::new(rt.alloc(), MOST_CANDIDATES as u8).times(u16::MAX, &ranks)?;
    match BallotFile::read(&votes.bytes()?) {
        Ok(file) => {
            let pairwise = Pairwise::of(file);
            let ballots = pairwise.ballots;
            let first = pairwise.preferring(0, MOST_CANDIDATES - 1);
            let last = pairwise.preferring(MOST_CANDIDATES - 1, 0);
            println!(rt; "the greatest file: papers {ballots}, n(0, 29) {first}, n(29, 0) {last}")?;
        }
        Err(refusal) => println!(rt; "the greatest file: {refusal}")?,
    }
    Ok(())
}

// The table copied into slices that are one too short, and one longer than it takes.
pub fn lent(rt: &HostRuntime) -> anyhow::Result<()> {
    let bytes = CIRCLE.file(rt.alloc())?;
    let pairwise = Pairwise::of(BallotFile::read(&bytes)?);
    let mut short = [7u16; 8];
    if let Err(refusal) = pairwise.copy_to(&mut short) {
        println!(rt; "room for 8: {refusal}, {short:?}")?;
    }
    let mut long = [7u16; 10];
    pairwise.copy_to(&mut long)?;
    println!(rt; "room for 10: {long:?}")?;
    Ok(())
}
