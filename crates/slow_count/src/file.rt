// A file of ballots, read byte by byte.
ghost use Rattle.std.specs.Prelude.{◌≡◌, slice_index};
ghost use Rattle.slow_count.specs.Files.{candidates_in, ballots_in, rank, prefers, preferring};

// How many bytes stand before the ballots.
const HEADER_LENGTH: usize = 3;

// Any bytes: what is missing is read as 0.
#[derive(Clone, Copy)]
pub struct File<'a> {
    pub bytes: &'a [u8],
}

impl File<'_> {
    fn byte(self, place: usize) -> u8
        ensures { result ≡ slice_index self.entry.bytes.now place }
    {
        self.bytes.get(place).copied().unwrap_or(0)
    }

    pub fn candidates(self) -> u8
        ensures { result ≡ candidates_in self.entry.bytes.now }
    {
        self.byte(0)
    }

    pub(crate) fn ballots(self) -> u16
        ensures { result ≡ ballots_in self.entry.bytes.now }
    {
        u16::from_le_bytes([self.byte(1), self.byte(2)])
    }

    // The rank that a ballot gives to x, and 0 where x is no candidate.
    fn rank(self, ballot: u16, x: usize) -> u8
        ensures { result ≡ rank self.entry.bytes.now ballot x }
    {
        let candidates = usize::from(self.candidates());
        if x < candidates {
            self.byte(HEADER_LENGTH + usize::from(ballot) * candidates + x)
        } else {
            0
        }
    }

    // Whether a ballot prefers x to y: both are candidates, x is ranked, and y is not or has the greater rank.
    pub(crate) fn prefers(self, ballot: u16, x: usize, y: usize) -> bool
        ensures { result ≡ prefers self.entry.bytes.now ballot x y }
    {
        let rank_x = self.rank(ballot, x);
        let rank_y = self.rank(ballot, y);
        y < usize::from(self.candidates()) && rank_x != 0 && (rank_y == 0 || rank_x < rank_y)
    }

    // How many ballots prefer x to y.
    pub(crate) fn preferring(self, x: usize, y: usize) -> u32
        ensures { result ≡ preferring self.entry.bytes.now x y (ballots_in self.entry.bytes.now) }
    {
        let mut preferring = 0;
        for ballot in 0..self.ballots() {
            if self.prefers(ballot, x, y) {
                preferring += 1;
            }
        }
        preferring
    }
}
