// What decides between equals.
ghost use Rattle.std.specs.Prelude.{◌≡◌, slice_index};

use crate::{Draw, File};

// Keys of the candidates, of which the smaller one comes first and equal ones by number, or drawn ballots.
#[derive(Clone, Copy)]
pub enum Tie<'a> {
    Keys(&'a [u8]),
    Drawn(Draw<'a>),
}

fn key(keys: &[u8], x: usize) -> u8
    ensures { result ≡ slice_index keys.now x }
{
    keys.get(x).copied().unwrap_or(0)
}

impl Tie<'_> {
    ghost use Rattle.slow_count.specs.Ties.{before};

    // Whether x is before y, by the ballots of the file.
    pub(crate) fn before(self, file: File<'_>, x: usize, y: usize) -> bool
        ensures { result ≡ before self.entry file.entry.bytes.now x y }
    {
        match self {
            Tie::Keys(keys) => (key(keys, x), x) < (key(keys, y), y),
            Tie::Drawn(draw) => draw.before(file, x, y),
        }
    }
}
