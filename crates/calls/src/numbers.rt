// Numbers in words.
ghost use Rattle.std.specs.Prelude.{◌≡◌};
ghost use Rattle.calls.specs.Numbers.{number_of};

// The number below 65,536 that the word is, in digits alone: `parse` would also take a plus in front.
pub fn number(word: &str) -> Option<u16>
    ensures { result ≡ number_of word.now }
{
    if word.as_bytes().starts_with(b"+") {
        return None;
    }
    word.parse().ok()
}
