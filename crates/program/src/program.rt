// A program, and how it ends.
ghost use Rattle.std.specs.Prelude.{◌≡◌};
ghost use Rattle.program.specs.Texts.{text_of};

use crate::phrase::words;
use crate::{Ending, Phrase, Said, Text};

// The version of all programs.
pub const VERSION: &str = "1.0.0";

// What a program calls itself, the words that stand behind its name in a call, and what it says of them.
#[derive(Clone, Copy)]
pub struct Program {
    pub name: &'static str,
    pub words: &'static str,
    pub help: &'static str,
}

impl Program {
    ghost use Rattle.program.specs.Endings.{usage, message, out_of, err_of, status_of};

    // How the program is called, by the name that it was called with, and what follows.
    fn usage<'a>(&self, called: &'a str, rest: &'a str) -> Text<'a>
        ensures { text_of result ≡ usage self.now called.now rest.now }
    {
        Text("usage: ", called, " ", self.words, Phrase::new(), rest)
    }

    // What is said of a file: that it is refused, or cannot be read or written, and why.
    fn message<'a>(&self, what: &'a str, file: &'a str, why: Phrase) -> Text<'a>
        ensures { text_of result ≡ message self.now what.now file.now why.bytes }
    {
        Text(self.name, what, file, ": ", why, "\n")
    }

    // What is said on standard output.
    fn out<'a>(&self, called: &'a str, ending: Ending<'a>) -> Text<'a>
        ensures { text_of result ≡ out_of self.now called.now ending.entry }
    {
        let none = Phrase::new();
        match ending {
            Ending::Done(text) => Text(text, "", "", "", none, ""),
            Ending::Help => self.usage(called, self.help),
            Ending::Version => Text(self.name, " ", VERSION, "", none, "\n"),
            Ending::Refused { refusal, .. } => {
                let text = words(refusal.text().as_str());
                Text("", "", "", "", text, "\n")
            }
            Ending::WrongCall
            | Ending::Unread { .. }
            | Ending::Unwritten { .. }
            | Ending::Unprinted { .. }
            | Ending::NoMemory => Text("", "", "", "", none, ""),
        }
    }

    // What is said on standard error.
    fn err<'a>(&self, called: &'a str, ending: Ending<'a>) -> Text<'a>
        ensures { text_of result ≡ err_of self.now called.now ending.entry }
    {
        let none = Phrase::new();
        match ending {
            Ending::Done(_) | Ending::Help | Ending::Version => Text("", "", "", "", none, ""),
            Ending::WrongCall => self.usage(called, "\n"),
            Ending::Refused { file, fault, .. } => self.message(": ", file, fault.text()),
            Ending::Unread { file, reason } => {
                self.message(": cannot read ", file, reason.text())
            }
            Ending::Unwritten { file, reason } => {
                self.message(": cannot write ", file, reason.text())
            }
            Ending::Unprinted { reason } => {
                self.message(": cannot write ", "standard output", reason.text())
            }
            Ending::NoMemory => Text(self.name, ": out of memory", "", "", none, "\n"),
        }
    }

    // What is said at the end, and with which status.
    pub fn said<'a>(&self, called: &'a str, ending: Ending<'a>) -> Said<'a>
        ensures out { text_of result.out ≡ out_of self.now called.now ending.entry }
        ensures err { text_of result.err ≡ err_of self.now called.now ending.entry }
        ensures status { result.status ≡ status_of ending.entry }
    {
        let status = match ending {
            Ending::Done(_) | Ending::Help | Ending::Version => 0,
            Ending::Refused { .. } => 1,
            Ending::WrongCall
            | Ending::Unread { .. }
            | Ending::Unwritten { .. }
            | Ending::Unprinted { .. }
            | Ending::NoMemory => 2,
        };
        Said {
            out: self.out(called, ending),
            err: self.err(called, ending),
            status,
        }
    }
}
