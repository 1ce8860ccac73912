// Runs the count on thousands of random files beside a slow count, and prints what came of it: the gate compares that
// with the file stdout.
#![tactic(auto)]

mod clones;
mod comparison;
mod draws;
mod failure;
mod random;
mod sheets;

use failure::Failure;
use random::Random;
use std::io;

fn trials(rt: &HostRuntime) -> Result<(), Failure> {
    let mut random = Random::new(rt.alloc());
    comparison::random_files(rt, &mut random)?;
    clones::clone_files(rt, &mut random)?;
    draws::drawn_files(rt, &mut random)
}

fn main(rt: HostRuntime) -> io::Result<()> {
    match trials(&rt) {
        Ok(()) => Ok(()),
        Err(failure) => {
            println!(rt; "{failure}")?;
            Err(io::Error::other("a trial failed"))
        }
    }
}
