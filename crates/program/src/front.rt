// Files of which no more is kept than can matter.
ghost use Rattle.std.specs.Prelude.{◌≡◌, ℕ, List, ◌++◌, IfOk, IfSome, OnOk, take, length, vec_items};
ghost use Rattle.program.specs.Fronts.{IsFront, ballots_kept, sheet_kept, draw_kept};

use std::alloc::{AllocError, Global};
use std::io;
use std::io::{ErrorKind, Read};

// How much of a file of ballots is kept: one byte more than the longest that can be accepted.
const BALLOTS_KEPT: u64 = 3 + 65535 * 30 + 1;

// The same of a sheet, whose paths have up to 255 candidates.
const SHEET_KEPT: u64 = 1 + 30 * 30 * 2 + 30 * 29 * (7 + 255) + 4 + 1;

// How much of a draw is kept: 65,536 numbers, of which one is no ballot's or comes twice.
const DRAW_KEPT: usize = 2 * 65536;

// How many bytes are read at a time where they are counted.
const CHUNK: usize = 8192;

// The front of what a reader gives, and how long all of it is.
#[derive(Drop)]
pub struct Front {
    pub bytes: Vec<u8>,
    pub length: u64,
}

// The front of what the reader gives: as many bytes as are kept at the most.
fn read_front<R: Read + Drop>(heap: Global, reader: R, most: u64) -> io::Result<Vec<u8>>
    ensures { IfOk result (λ bytes. IfSome (R.remaining reader) (λ all. bytes.items ≡ take most all)) }
{
    let mut bytes = Vec::new(heap);
    reader.take(most).read_to_end(&mut bytes)?;
    Ok(bytes)
}

impl Front {
    // Puts bytes behind those so far, and keeps none beyond as many as are kept at the most.
    fn push(&mut self, more: &[u8], most: usize) -> Result<(), AllocError>
        ensures { OnOk result ((seen : List ℕ) → IsFront most seen self.old → IsFront most (seen ++ more.now) self.new) }
    {
        let room = most.saturating_sub(self.bytes.len());
        self.bytes.extend_from_slice(&more[..more.len().min(room)])?;
        self.length = self.length.saturating_add(more.len() as u64);
        Ok(())
    }
}

// The same, and how much the reader gives in all. What is not kept is read and counted.
fn read_counted<R: Read + Drop>(heap: Global, mut reader: R, most: usize) -> io::Result<Front>
    ensures { IfOk result (λ front. IfSome (R.remaining reader) (λ all. IsFront most all front)) }
{
    let mut front = Front {
        bytes: Vec::new(heap),
        length: 0,
    };
    let mut chunk = [0; CHUNK];
    for _ in 0..u64::MAX {
        match reader.read(&mut chunk) {
            Ok(0) => return Ok(front),
            Ok(count) => front.push(&chunk[..count], most)?,
            Err(error) if error.kind() == ErrorKind::Interrupted => {}
            Err(error) => return Err(error),
        }
    }
    Err(io::Error::from(ErrorKind::FileTooLarge))
}

// What is kept of a file of ballots.
pub fn read_ballots<R: Read + Drop>(heap: Global, reader: R) -> io::Result<Vec<u8>>
    ensures { IfOk result (λ bytes. IfSome (R.remaining reader) (λ all. bytes.items ≡ take ballots_kept all)) }
{
    read_front(heap, reader, BALLOTS_KEPT)
}

// What is kept of a sheet.
pub fn read_sheet<R: Read + Drop>(heap: Global, reader: R) -> io::Result<Vec<u8>>
    ensures { IfOk result (λ bytes. IfSome (R.remaining reader) (λ all. bytes.items ≡ take sheet_kept all)) }
{
    read_front(heap, reader, SHEET_KEPT)
}

// What is kept of a draw, and how long it is.
pub fn read_draw<R: Read + Drop>(heap: Global, reader: R) -> io::Result<Front>
    ensures { IfOk result (λ front. IfSome (R.remaining reader) (λ all. IsFront draw_kept all front)) }
{
    read_counted(heap, reader, DRAW_KEPT)
}
