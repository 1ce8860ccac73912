// What a program says.
ghost use Rattle.std.specs.Prelude.{Some};
ghost use Rattle.program.specs.Texts.{text_of};

use crate::Phrase;
use std::fmt;

// A text in pieces, which stand one behind the other.
#[derive(Clone, Copy)]
pub struct Text<'a>(
    pub &'a str,
    pub &'a str,
    pub &'a str,
    pub &'a str,
    pub Phrase,
    pub &'a str,
);

impl fmt::Display for Text<'_> {
    ghost output = { λ t. Some (text_of t) };

    fn fmt<W: fmt::Write>(&self, f: &mut fmt::Formatter<W>) -> fmt::Result {
        let Text(first, second, third, fourth, phrase, end) = self;
        f.write_str(first)?;
        f.write_str(second)?;
        f.write_str(third)?;
        f.write_str(fourth)?;
        f.write_str(phrase.as_str())?;
        f.write_str(end)
    }
}

// What stands on standard output and on standard error, and the status.
#[derive(Clone, Copy)]
pub struct Said<'a> {
    pub out: Text<'a>,
    pub err: Text<'a>,
    pub status: u8,
}
