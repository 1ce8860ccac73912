// Reads from readers that give little at a time, are interrupted, or fail.
#![tactic(auto)]

use program::{read_ballots, read_draw, read_sheet};
use std::io;
use std::io::{ErrorKind, Read};

// Gives bytes of one value, `step` at a time, is interrupted before every third one, and fails at the end if it is to.
#[derive(Clone, Copy)]
struct Fake {
    left: usize,
    step: usize,
    turn: usize,
    failing: bool,
}

impl Fake {
    fn new(left: usize, step: usize) -> Fake {
        Fake {
            left,
            step,
            turn: 0,
            failing: false,
        }
    }

    fn failing(self) -> Fake {
        Fake {
            failing: true,
            ..self
        }
    }
}

impl Read for Fake {
    fn read(&mut self, buf: &mut [u8]) -> io::Result<usize> {
        self.turn = self.turn.wrapping_add(1);
        if self.turn % 3 == 0 {
            return Err(io::Error::from(ErrorKind::Interrupted));
        }
        if self.left == 0 && self.failing {
            return Err(io::Error::from(ErrorKind::PermissionDenied));
        }
        let given = self.step.min(self.left).min(buf.len());
        buf[..given].fill(7);
        self.left -= given;
        Ok(given)
    }
}

fn say(rt: &impl Print, what: &str, read: io::Result<Vec<u8>>) -> io::Result<()> {
    match read {
        Ok(bytes) => println!(rt; "{what}: {} bytes", bytes.len()),
        Err(error) => println!(rt; "{what}: {error}"),
    }
}

fn say_draw(rt: &HostRuntime, fake: Fake) -> io::Result<()> {
    match read_draw(rt.alloc(), fake) {
        Ok(front) => println!(rt; "draw: {} bytes of {}", front.bytes.len(), front.length),
        Err(error) => println!(rt; "draw: {error}"),
    }
}

fn main(rt: HostRuntime) -> io::Result<()> {
    for left in [0, 1, 1966053, 1966054, 1966055, 3000000] {
        say(
            &rt,
            "ballots",
            read_ballots(rt.alloc(), Fake::new(left, 1000)),
        )?;
    }
    say(
        &rt,
        "ballots",
        read_ballots(rt.alloc(), Fake::new(20, 1).failing()),
    )?;
    say(&rt, "sheet", read_sheet(rt.alloc(), Fake::new(1000000, 5)))?;
    say(
        &rt,
        "sheet",
        read_sheet(rt.alloc(), Fake::new(1000000, 5).failing()),
    )?;
    say(
        &rt,
        "sheet",
        read_sheet(rt.alloc(), Fake::new(229745, 5).failing()),
    )?;
    for left in [0, 1, 131072, 131073, 1000001] {
        say_draw(&rt, Fake::new(left, 999))?;
    }
    say_draw(&rt, Fake::new(500000, 999).failing())
}
