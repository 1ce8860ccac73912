// A file with two clones, 0 and 3, counted as it is and with some candidates struck.
use crate::votes::CLONES;
use ballots::{Bits, CandidateSet};
use best::best_of_both;

fn print_both(rt: &HostRuntime, name: &str, keep: Bits, room: usize) -> anyhow::Result<()> {
    let file = CLONES.file(rt.alloc())?;
    let mut struck = vec![in rt.alloc(); 0u8; room]?;
    match best_of_both(&file, CandidateSet::from_bits(keep), &mut struck) {
        Ok(both) => println!(rt;
            "{name}: best {:b}, then {:b}",
            both.all.bits(),
            both.kept.bits()
        )?,
        Err(refusal) => println!(rt; "{name}: {refusal}")?,
    }
    Ok(())
}

pub fn all(rt: &HostRuntime) -> anyhow::Result<()> {
    print_both(rt, "candidate 3 struck", 0b0111, 30)?;
    print_both(rt, "candidate 0 struck", 0b1110, 30)?;
    print_both(rt, "all struck", 0b10000, 30)?;
    print_both(rt, "no room for the struck file", 0b0111, 29)
}
