// What `check` is called for.
ghost use Rattle.std.specs.Prelude.{◌≡◌, map, string_bytes};
ghost use Rattle.calls.specs.Views.{part_view};
ghost use Rattle.calls.specs.CheckCalls.{nothing, file, take, asked, check_call};
ghost use Rattle.calls.specs.CheckViews.{seen, Takes, Asks as Called};

use crate::call::Asks;
use crate::{Call, Grammar, Part, Parts};

// The files of the ballots and of the sheet.
#[derive(Clone, Copy)]
pub struct CheckRequest<'a> {
    pub ballots: &'a str,
    pub sheet: &'a str,
}

// What the parts so far ask for.
#[derive(Clone, Copy)]
struct Given<'a> {
    asks: Asks,
    ballots: Option<&'a str>,
    sheet: Option<&'a str>,
}

impl<'a> Given<'a> {
    fn nothing() -> Given<'a>
        ensures { seen result ≡ nothing }
    {
        Given {
            asks: Asks::Run,
            ballots: None,
            sheet: None,
        }
    }

    // A file: the first is that of the ballots, the second that of the sheet.
    fn file(self, path: &'a str) -> Option<Given<'a>>
        ensures { Takes result (file (seen self.entry) path.now) }
    {
        if self.ballots.is_none() {
            Some(Given {
                ballots: Some(path),
                ..self
            })
        } else if self.sheet.is_none() {
            Some(Given {
                sheet: Some(path),
                ..self
            })
        } else {
            None
        }
    }

    // One part more.
    fn take(self, part: Part<'a>) -> Option<Given<'a>>
        ensures { Takes result (take (seen self.entry) (part_view part.entry)) }
    {
        match part {
            Part::File(path) => self.file(path),
            Part::Flag(name) => {
                let asks = Asks::of(name)?;
                Some(Given { asks, ..self })
            }
            Part::Valued { .. } | Part::Wrong => None,
        }
    }

    // What is asked for when there is no part more.
    fn end(self) -> Option<Call<CheckRequest<'a>>>
        ensures { Called result (asked (seen self.entry)) }
    {
        match self.asks {
            Asks::Help => Some(Call::Help),
            Asks::Version => Some(Call::Version),
            Asks::Run => Some(Call::Run(CheckRequest {
                ballots: self.ballots?,
                sheet: self.sheet?,
            })),
        }
    }
}

impl<'a> CheckRequest<'a> {
    // What the words behind the program's name ask for; nothing where they are no call.
    pub fn parse(words: &'a [String]) -> Option<Call<CheckRequest<'a>>>
        ensures { Called result (check_call (map string_bytes words.now)) }
    {
        let mut parts = Parts {
            grammar: Grammar::Check,
            words,
            only_files: false,
        };
        parts.try_fold(Given::nothing(), Given::take)?.end()
    }
}
