// The files that are counted.
use calls::DrawSource;
use program::{Ending, Front};
use std::{fs, io};

// What is kept of the ballots.
pub fn read_ballots<'a>(rt: &HostRuntime, path: &'a str) -> Result<Vec<u8>, Ending<'a>> {
    let read = || program::read_ballots(rt.alloc(), fs::open(rt, path)?);
    read().map_err(|error: io::Error| Ending::unread(path, &error))
}

// What is kept of the draw: of the file, or of the numbers on the command line.
pub fn read_draw<'a>(rt: &HostRuntime, source: DrawSource<'a>) -> Result<Front, Ending<'a>> {
    match source {
        DrawSource::Nowhere => Ok(Front {
            bytes: Vec::new(rt.alloc()),
            length: 0,
        }),
        DrawSource::File(path) => {
            let read = || program::read_draw(rt.alloc(), fs::open(rt, path)?);
            read().map_err(|error: io::Error| Ending::unread(path, &error))
        }
        DrawSource::Words(drawn) => {
            let bytes = drawn.bytes(rt.alloc())?;
            let length = bytes.len() as u64;
            Ok(Front { bytes, length })
        }
    }
}
