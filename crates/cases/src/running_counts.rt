// A provisional count, ballot by ballot.
use crate::votes::CIRCLE;
use ballots::{Ballot, BallotFile};
use provisional::Provisional;

fn print_refused(rt: &HostRuntime, name: &str, candidates: usize) -> anyhow::Result<()> {
    match Provisional::new(candidates) {
        Ok(_) => println!(rt; "{name}: started")?,
        Err(refusal) => println!(rt; "{name}: {refusal}")?,
    }
    Ok(())
}

fn add(rt: &HostRuntime, count: &mut Provisional, ranks: &[u8]) -> anyhow::Result<()> {
    if let Err(refusal) = count.add(Ballot { ranks }) {
        print!(rt; "{refusal}, ")?;
    }
    println!(rt; "papers {} best {:b}", count.ballots(), count.best().bits())?;
    Ok(())
}

pub fn all(rt: &HostRuntime) -> anyhow::Result<()> {
    print_refused(rt, "no candidates", 0)?;
    print_refused(rt, "30 candidates", 30)?;
    print_refused(rt, "31 candidates", 31)?;
    let file = CIRCLE.file(rt.alloc())?;
    let mut count = Provisional::new(3)?;
    for ballot in BallotFile::read(&file)?.iter() {
        add(rt, &mut count, ballot.ranks)?;
    }
    add(rt, &mut count, &[1, 2])?;
    add(rt, &mut count, &[1, 2, 3, 4])
}
