// A draw as numbers in a word.
ghost use Rattle.std.specs.Prelude.{◌≡◌, true, false, IfOk, string_bytes, vec_items, MatchOption};
ghost use Rattle.calls.specs.Drawn.{is_draw, numbers_in, draw_bytes, drawn_line};

use crate::number;
use std::alloc::{AllocError, Global};

// A word that is numbers with commas between, one at the least.
#[derive(Clone, Copy)]
pub struct Drawn<'a> {
    word: &'a str,
    ghost numbers: { is_draw word.now ≡ true },
}

impl<'a> Drawn<'a> {
    ghost use Rattle.calls.specs.DrawnViews.{drawn_word};

    // The draw that the word is, if it is one.
    pub fn parse(word: &'a str) -> Option<Drawn<'a>>
        ensures { MatchOption result (is_draw word.now ≡ false) (λ d. (is_draw word.now ≡ true) × (drawn_word d ≡ word.now)) }
    {
        for piece in word.split(',') {
            number(piece)?;
        }
        Some(Drawn { word })
    }
    // The bytes of the draw, as in a file.
    pub fn bytes(self, alloc: Global) -> Result<Vec<u8>, AllocError>
        ensures { IfOk result (λ bytes. bytes.items ≡ draw_bytes (numbers_in (drawn_word self.entry))) }
    {
        let mut bytes = Vec::new(alloc);
        for piece in self.word.split(',') {
            if let Some(number) = number(piece) {
                bytes.extend_from_slice(&number.to_le_bytes())?;
            }
        }
        Ok(bytes)
    }

    // The line that says the draw.
    pub fn line(self, alloc: Global) -> Result<String, AllocError>
        ensures { IfOk result (λ line. string_bytes line ≡ drawn_line (numbers_in (drawn_word self.entry))) }
    {
        let mut line = String::from_str(alloc, "drawn")?;
        for piece in self.word.split(',') {
            if let Some(number) = number(piece) {
                write!(line, " {number}")?;
            }
        }
        line.push_str("\n")?;
        Ok(line)
    }
}
