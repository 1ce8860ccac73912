// Why a program ends.
ghost use Rattle.std.specs.Prelude.{◌≡◌};
ghost use Rattle.std.specs.IoError.{error_kind, raw_os_error};
ghost use Rattle.program.specs.Reasons.{reason_of};

use crate::{Fault, Reason};
use ballots::Refusal;
use std::alloc::AllocError;
use std::io;
use std::io::ErrorKind;

#[derive(Clone, Copy)]
pub enum Ending<'a> {
    // All is done, and these words are said.
    Done(&'a str),
    // The program is asked what it says of itself.
    Help,
    Version,
    // The words behind its name are no call.
    WrongCall,
    Refused {
        file: &'a str,
        refusal: Refusal,
        fault: Fault,
    },
    Unread {
        file: &'a str,
        reason: Reason,
    },
    Unwritten {
        file: &'a str,
        reason: Reason,
    },
    // Standard output cannot be written.
    Unprinted {
        reason: Reason,
    },
    NoMemory,
}

impl<'a> Ending<'a> {
    ghost use Rattle.program.specs.Wrong.{words_ending};

    // The file cannot be read, by the error of the system.
    pub fn unread(file: &'a str, error: &io::Error) -> Ending<'a>
        ensures { result ≡ Ending.Unread file.entry (reason_of (error_kind error.now) (raw_os_error error.now)) }
    {
        Ending::Unread {
            file,
            reason: Reason::of(error),
        }
    }

    // The file cannot be written.
    pub fn unwritten(file: &'a str, error: &io::Error) -> Ending<'a>
        ensures { result ≡ Ending.Unwritten file.entry (reason_of (error_kind error.now) (raw_os_error error.now)) }
    {
        Ending::Unwritten {
            file,
            reason: Reason::of(error),
        }
    }

    // Standard output cannot be written.
    pub fn unprinted(error: &io::Error) -> Ending<'a>
        ensures { result ≡ Ending.Unprinted (reason_of (error_kind error.now) (raw_os_error error.now)) }
    {
        Ending::Unprinted {
            reason: Reason::of(error),
        }
    }
    // The words of the call cannot be read: memory is out, or one is no text.
    pub fn of_words(error: &io::Error) -> Ending<'a>
        ensures { result ≡ words_ending (error_kind error.now) }
    {
        match error.kind() {
            ErrorKind::OutOfMemory => Ending::NoMemory,
            _ => Ending::WrongCall,
        }
    }
}

impl<'a> From<AllocError> for Ending<'a> {
    ghost use Rattle.program.specs.declared.ending.Ending.TheVariants.{NoMemory};

    ghost from_gives = { λ _ ending. ending ≡ NoMemory };

    fn from(_: AllocError) -> Ending<'a> {
        Ending::NoMemory
    }
}
