// Words and numbers in a room of their own.
ghost use Rattle.std.specs.Prelude.{◌≡◌, ◌+◌, ◌≤◌, length};
ghost use Rattle.program.specs.Phrases.{numbered};

use arrayvec::ArrayString;
use itoa::Buffer;

// No phrase is longer: words, and up to four numbers.
const LONGEST: usize = 128;

pub type Phrase = ArrayString<LONGEST>;

// Words alone.
pub(crate) fn words(text: &str) -> Phrase
    requires { length text.now ≤ LONGEST }
    ensures bytes { result.bytes ≡ text.now }
    ensures room { length result.bytes ≤ length text.now }
{
    let mut phrase = Phrase::new();
    phrase.push_str(text);
    phrase
}

// A number behind words, and what follows it.
pub(crate) fn numbered(text: &str, number: usize, rest: Phrase) -> Phrase
    requires { length text.now + 20 + length rest.bytes ≤ LONGEST }
    ensures bytes { result.bytes ≡ numbered text.now number rest.bytes }
    ensures room { length result.bytes ≤ length text.now + 20 + length rest.bytes }
{
    let mut phrase = Phrase::new();
    phrase.push_str(text);
    phrase.push_str(Buffer::new().format(number));
    phrase.push_str(rest.as_str());
    phrase
}
