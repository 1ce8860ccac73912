// Why a file cannot be read or written.
ghost use Rattle.std.specs.Prelude.{◌≡◌};
ghost use Rattle.std.specs.IoError.{error_kind, raw_os_error};

use crate::Phrase;
use crate::phrase::{numbered, words};
use std::io;
use std::io::ErrorKind;

// The number of the error of a stream that is closed.
const BAD_DESCRIPTOR: u32 = 9;

#[derive(Clone, Copy, PartialEq, Eq)]
pub enum Reason {
    NoFile,
    NoPermission,
    Folder,
    NoFolder,
    Links,
    Name,
    Space,
    TooLarge,
    ReadOnly,
    NoReader,
    Memory,
    Closed,
    // Another one of the system's, by its number.
    System(u32),
    // One that has no number.
    Unknown,
    // A sheet would be written over a file that is read, over a standard stream, or over what is no file as others are.
    Input,
    Stream,
    Special,
}

impl Reason {
    ghost use Rattle.program.specs.Reasons.{by_number, reason_of, reason_text};

    fn by_number(number: u32) -> Reason
        ensures { result ≡ by_number number }
    {
        if number == BAD_DESCRIPTOR {
            Reason::Closed
        } else {
            Reason::System(number)
        }
    }

    pub fn of(error: &io::Error) -> Reason
        ensures { result ≡ reason_of (error_kind error.now) (raw_os_error error.now) }
    {
        match error.kind() {
            ErrorKind::NotFound => Reason::NoFile,
            ErrorKind::PermissionDenied => Reason::NoPermission,
            ErrorKind::IsADirectory => Reason::Folder,
            ErrorKind::NotADirectory => Reason::NoFolder,
            ErrorKind::FilesystemLoop => Reason::Links,
            ErrorKind::InvalidFilename => Reason::Name,
            ErrorKind::StorageFull | ErrorKind::QuotaExceeded => Reason::Space,
            ErrorKind::FileTooLarge => Reason::TooLarge,
            ErrorKind::ReadOnlyFilesystem => Reason::ReadOnly,
            ErrorKind::BrokenPipe => Reason::NoReader,
            ErrorKind::OutOfMemory => Reason::Memory,
            _ => match error.raw_os_error() {
                Some(code) => Reason::by_number(code.unsigned_abs()),
                None => Reason::Unknown,
            },
        }
    }

    pub fn text(self) -> Phrase
        ensures { result.bytes ≡ reason_text self }
    {
        match self {
            Reason::NoFile => words("no such file or folder"),
            Reason::NoPermission => words("no permission"),
            Reason::Folder => words("it is a folder"),
            Reason::NoFolder => words("a part of its path is no folder"),
            Reason::Links => words("too many links"),
            Reason::Name => words("the name is too long"),
            Reason::Space => words("no space left"),
            Reason::TooLarge => words("the file would be too large"),
            Reason::ReadOnly => words("the disk is read-only"),
            Reason::NoReader => words("nobody reads it"),
            Reason::Memory => words("out of memory"),
            Reason::Closed => words("it is closed"),
            Reason::System(code) => numbered("system error ", code as usize, words("")),
            Reason::Unknown => words("it failed"),
            Reason::Input => words("it is read"),
            Reason::Stream => words("it is a standard stream"),
            Reason::Special => words("it is no ordinary file"),
        }
    }
}
