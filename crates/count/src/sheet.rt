// The file that a sheet is written to.
use calls::{CountRequest, DrawSource};
use program::{Ending, Reason};
use std::fs::{File, Metadata, OpenOptions};
use std::io::{ErrorKind, Write};
use std::os::unix::fs::{MetadataExt, fchown};
use std::path::{Path, PathBuf};
use std::{fs, io};

// How many links the system follows on the way to a file.
const LINKS: usize = 40;

// How many names a new file may find taken, each by a run that was killed before it could rename its own.
const NAMES: usize = 65_536;

// The standard streams' files, if there are some.
const STREAMS: [&str; 3] = ["/proc/self/fd/0", "/proc/self/fd/1", "/proc/self/fd/2"];

// The file that a sheet is asked for in: the older file if there is one, and the path that links lead to from there, or why
// there is no such path.
#[derive(Drop)]
pub struct Sheet<'a> {
    asked: &'a str,
    older: Option<Metadata>,
    path: io::Result<PathBuf>,
}

// What is at a path, if there is something.
fn there(found: io::Result<Metadata>) -> io::Result<Option<Metadata>> {
    match found {
        Ok(found) => Ok(Some(found)),
        Err(error) if error.kind() == ErrorKind::NotFound => Ok(None),
        Err(error) => Err(error),
    }
}

// The path that links lead to, where a file is or may be.
fn follow(rt: &HostRuntime, asked: &str) -> io::Result<PathBuf> {
    let mut path = PathBuf::from_str(rt.alloc(), asked)?;
    for _ in 0..=LINKS {
        let found = there(fs::symlink_metadata(rt, &path))?;
        if !found.is_some_and(|found| found.is_symlink()) {
            return Ok(path);
        }
        let link = fs::read_link(rt, &path)?;
        path.pop();
        path.push(&link)?;
    }
    Err(io::Error::from(ErrorKind::FilesystemLoop))
}

// Fills a new file, and gives it to the owner and group of the older one, where the system allows it, with its permissions.
fn fill(mut file: File, older: Option<&Metadata>, bytes: &[u8]) -> io::Result<()> {
    file.write_all(bytes)?;
    file.sync_all()?;
    if let Some(older) = older {
        let _ = fchown(&file, None, Some(older.gid()));
        let _ = fchown(&file, Some(older.uid()), None);
        file.set_permissions(older.permissions())?;
    }
    Ok(())
}

// A new file beside the path, and its path. Its name says whose it is, or is as short as can be.
fn create(rt: &HostRuntime, path: &PathBuf, is_short: bool) -> io::Result<(File, PathBuf)> {
    for place in 0..NAMES {
        let name = if is_short {
            format!(in rt.alloc(); "{place}")?
        } else {
            format!(in rt.alloc(); ".count-{place}.new")?
        };
        let beside = path.with_file_name(rt.alloc(), name.as_str())?;
        match File::create_new(rt, &beside) {
            Ok(file) => return Ok((file, beside)),
            Err(error) if error.kind() == ErrorKind::AlreadyExists => {}
            Err(error) => return Err(error),
        }
    }
    Err(io::Error::from(ErrorKind::AlreadyExists))
}

// Puts a new file with these bytes at the path, in place of the older one if there is one.
fn replace(
    rt: &HostRuntime,
    path: &PathBuf,
    older: Option<&Metadata>,
    bytes: &[u8],
) -> io::Result<()> {
    if older.is_some() {
        // A file that may not be written is not replaced either.
        OpenOptions::new().write(true).open(rt, path)?;
    }
    let (file, beside) = match create(rt, path, false) {
        // With the longer name the path is longer than the system takes.
        Err(error) if error.kind() == ErrorKind::InvalidFilename => create(rt, path, true)?,
        created => created?,
    };
    let replaced = match fill(file, older, bytes) {
        Ok(()) => fs::rename(rt, &beside, path),
        failed => failed,
    };
    if replaced.is_err() {
        let _ = fs::remove_file(rt, &beside);
    }
    replaced
}

impl<'a> Sheet<'a> {
    // The file that a sheet is asked for in, unless it is one that no sheet is to take the place of. Whether it can be written is
    // found out when it is.
    pub fn find(
        rt: &HostRuntime,
        request: &CountRequest<'a>,
    ) -> Result<Option<Sheet<'a>>, Ending<'a>> {
        let Some(asked) = request.sheet else {
            return Ok(None);
        };
        let sheet = Sheet::at(rt, asked);
        match sheet.objection(rt, request) {
            None => Ok(Some(sheet)),
            Some(reason) => Err(Ending::Unwritten {
                file: asked,
                reason,
            }),
        }
    }

    fn at(rt: &HostRuntime, asked: &'a str) -> Sheet<'a> {
        match there(fs::metadata(rt, asked)) {
            Ok(older) => Sheet {
                asked,
                older,
                path: follow(rt, asked),
            },
            Err(error) => Sheet {
                asked,
                older: None,
                path: Err(error),
            },
        }
    }

    // Why the file may not be written, if there is a reason.
    fn objection(&self, rt: &HostRuntime, request: &CountRequest<'a>) -> Option<Reason> {
        let Some(older) = &self.older else {
            return None;
        };
        if older.is_dir() {
            return Some(Reason::Folder);
        }
        if !older.is_file() {
            return Some(Reason::Special);
        }
        for stream in STREAMS {
            if self.is_at(rt, stream) {
                return Some(Reason::Stream);
            }
        }
        if self.is_at(rt, request.ballots) {
            return Some(Reason::Input);
        }
        if let DrawSource::File(draw) = request.draw {
            if self.is_at(rt, draw) {
                return Some(Reason::Input);
            }
        }
        match &self.path {
            // It was removed while it is open, and nothing at this path can take its place.
            Ok(path) if !self.is_at(rt, path.as_str()) => Some(Reason::Special),
            _ => None,
        }
    }

    // Whether a path leads to this file.
    fn is_at(&self, rt: &HostRuntime, path: &str) -> bool {
        match (&self.older, fs::metadata(rt, path)) {
            (Some(older), Ok(other)) => older.dev() == other.dev() && older.ino() == other.ino(),
            _ => false,
        }
    }

    // Writes the bytes to a new file beside, which takes the place of the older one once it is whole.
    pub fn write(self, rt: &HostRuntime, bytes: &[u8]) -> Result<(), Ending<'a>> {
        let Sheet { asked, older, path } = self;
        let written = match path {
            Ok(path) => replace(rt, &path, older.as_ref(), bytes),
            // Links lead to a name that is not UTF-8, as paths are here, so that no new file can take its place. It is written
            // by the path that was asked for, and may be left half written. Any other path of this kind fails again.
            Err(error) if error.kind() == ErrorKind::InvalidFilename => fs::write(rt, asked, bytes),
            Err(error) => Err(error),
        };
        written.map_err(|error| Ending::unwritten(asked, &error))
    }
}
