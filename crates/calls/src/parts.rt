// A call, part by part.
ghost use Rattle.std.specs.Prelude.{◌≡◌, false, [], MatchOption};
ghost use Rattle.calls.specs.Parts.{is_option, joined};
ghost use Rattle.calls.specs.Views.{part_view, parts_view, FirstAndRest, ValuedFirst};

use crate::Grammar;
use crate::grammar::Takes;

// A part of a call.
#[derive(Clone, Copy)]
pub enum Part<'a> {
    File(&'a str),
    Flag(&'a str),
    Valued { name: &'a str, value: &'a str },
    // What looks like an option and is none, or has no value, or one that it does not take.
    Wrong,
}

// The words that are still to be read. Behind `--` each of them is a file.
#[derive(Clone, Copy)]
pub struct Parts<'a> {
    pub grammar: Grammar,
    pub words: &'a [String],
    pub only_files: bool,
}

// Whether the word looks like an option: a dash, and something behind it.
fn is_option(word: &str) -> bool
    ensures { result ≡ is_option word.now }
{
    word.starts_with('-') && word != "-"
}

// An option that is written with its value, as name=value.
fn joined(grammar: Grammar, word: &str) -> Part<'_>
    ensures { part_view result ≡ joined grammar word.now }
{
    let Some((name, value)) = word.split_once('=') else {
        return Part::Wrong;
    };
    match grammar.takes(name) {
        Some(Takes::Value) => Part::Valued { name, value },
        _ => Part::Wrong,
    }
}

impl<'a> Parts<'a> {
    // The option of this name with the word that comes next as its value, and what follows.
    fn valued(self, name: &'a str) -> (Part<'a>, Parts<'a>)
        requires { self.only_files ≡ false }
        ensures { ValuedFirst self.entry name.now result.0 result.1 }
    {
        match self.words.split_first() {
            None => (Part::Wrong, self),
            Some((value, words)) => (
                Part::Valued {
                    name,
                    value: value.as_str(),
                },
                Parts { words, ..self },
            ),
        }
    }

    // The first part, and what follows it.
    pub fn split_first(self) -> Option<(Part<'a>, Parts<'a>)>
        ensures { MatchOption result (parts_view self.entry ≡ []) (λ p. FirstAndRest self.entry p.0 p.1) }
    {
        let (word, words) = self.words.split_first()?;
        let rest = Parts { words, ..self };
        if self.only_files {
            return Some((Part::File(word.as_str()), rest));
        }
        if word.as_str() == "--" {
            let (file, words) = words.split_first()?;
            let files = Parts {
                words,
                only_files: true,
                ..self
            };
            return Some((Part::File(file.as_str()), files));
        }
        if !is_option(word.as_str()) {
            return Some((Part::File(word.as_str()), rest));
        }
        match self.grammar.takes(word.as_str()) {
            Some(Takes::Nothing) => Some((Part::Flag(word.as_str()), rest)),
            Some(Takes::Value) => Some(rest.valued(word.as_str())),
            None => Some((joined(self.grammar, word.as_str()), rest)),
        }
    }
}

impl<'a> Iterator for Parts<'a> {
    ghost use Rattle.std.specs.Iterator.{YieldsFirstBy, item_count};

    type Item = Part<'a>;

    ghost next_gives = { YieldsFirstBy part_view parts_view };

    ghost remaining = { item_count parts_view };

    fn next(&mut self) -> Option<Part<'a>> {
        let (part, rest) = self.split_first()?;
        *self = rest;
        Some(part)
    }
}
