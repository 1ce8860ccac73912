// Drawn ballots.
ghost use Rattle.std.specs.Prelude.{◌≡◌};
ghost use Rattle.slow_count.specs.Draws.{number, draws, is_drawn_once};

use crate::File;

// The numbers of the ballots in the order in which they are drawn, each in two bytes, low byte first.
#[derive(Clone, Copy)]
pub struct Draw<'a> {
    pub numbers: &'a [u8],
}

fn number(low: u8, high: u8) -> u16
    ensures { result ≡ number low high }
{
    u16::from_le_bytes([low, high])
}

fn draws(numbers: &[u8], ballot: u16) -> bool
    ensures { result ≡ draws ballot numbers.now }
{
    let mut rest = numbers;
    while let [low, high, others @ ..] = rest {
        if number(*low, *high) == ballot {
            return true;
        }
        rest = others;
    }
    false
}

// Whether the ballot is one of so many, and is not drawn again.
#[tactic(auto, unfolding(crate::specs::Draws::is_drawn_once))]
fn is_drawn_once(ballot: u16, ballots: u16, others: &[u8]) -> bool
    ensures { result ≡ is_drawn_once ballot ballots others.now }
{
    ballot < ballots && !draws(others, ballot)
}

impl Draw<'_> {
    ghost use Rattle.slow_count.specs.Files.{ballots_in};
    ghost use Rattle.slow_count.specs.Draws.{is_draw, drawn_before};

    // Whether each drawn ballot is one of the file's, and none is drawn again.
    pub fn is_from(self, file: File<'_>) -> bool
        ensures { result ≡ is_draw (ballots_in file.entry.bytes.now) self.entry.numbers.now }
    {
        let mut rest = self.numbers;
        while let [low, high, others @ ..] = rest {
            if !is_drawn_once(number(*low, *high), file.ballots(), others) {
                return false;
            }
            rest = others;
        }
        rest.is_empty()
    }

    // Whether x is before y: the first drawn ballot that does not put them equal decides, and where none does, the
    // smaller number.
    pub(crate) fn before(self, file: File<'_>, x: usize, y: usize) -> bool
        ensures { result ≡ drawn_before file.entry.bytes.now x y self.entry.numbers.now }
    {
        let mut rest = self.numbers;
        while let [low, high, others @ ..] = rest {
            let ballot = number(*low, *high);
            if file.prefers(ballot, x, y) {
                return true;
            }
            if file.prefers(ballot, y, x) {
                return false;
            }
            rest = others;
        }
        x < y
    }
}
