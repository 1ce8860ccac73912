// What `count` is called for.
ghost use Rattle.std.specs.Prelude.{◌≡◌, map, string_bytes};
ghost use Rattle.calls.specs.Views.{part_view};
ghost use Rattle.calls.specs.CountCalls.{nothing, file, valued, take, asked, count_call};
ghost use Rattle.calls.specs.CountViews.{seen, Takes, Asks as Called};

use crate::call::Asks;
use crate::{Call, Drawn, Grammar, Part, Parts};

// Where the draw comes from.
#[derive(Clone, Copy)]
pub enum DrawSource<'a> {
    Nowhere,
    File(&'a str),
    Words(Drawn<'a>),
}

// The files of the ballots and of the draw, or the draw itself, and where the sheet goes.
#[derive(Clone, Copy)]
pub struct CountRequest<'a> {
    pub ballots: &'a str,
    pub draw: DrawSource<'a>,
    pub sheet: Option<&'a str>,
}

// What the parts so far ask for.
#[derive(Clone, Copy)]
struct Given<'a> {
    asks: Asks,
    ballots: Option<&'a str>,
    draw: Option<&'a str>,
    drawn: Option<Drawn<'a>>,
    sheet: Option<&'a str>,
}

impl<'a> Given<'a> {
    fn nothing() -> Given<'a>
        ensures { seen result ≡ nothing }
    {
        Given {
            asks: Asks::Run,
            ballots: None,
            draw: None,
            drawn: None,
            sheet: None,
        }
    }

    // A file: the first is that of the ballots, the second that of the draw.
    fn file(self, path: &'a str) -> Option<Given<'a>>
        ensures { Takes result (file (seen self.entry) path.now) }
    {
        if self.ballots.is_none() {
            Some(Given {
                ballots: Some(path),
                ..self
            })
        } else if self.draw.is_none() {
            Some(Given {
                draw: Some(path),
                ..self
            })
        } else {
            None
        }
    }

    // An option with its value. The last one of two counts.
    fn valued(self, name: &str, value: &'a str) -> Option<Given<'a>>
        ensures { Takes result (valued (seen self.entry) name.now value.now) }
    {
        if name == "--sheet" {
            Some(Given {
                sheet: Some(value),
                ..self
            })
        } else if name == "--drawn" {
            let drawn = Drawn::parse(value)?;
            Some(Given {
                drawn: Some(drawn),
                ..self
            })
        } else {
            None
        }
    }

    // One part more.
    fn take(self, part: Part<'a>) -> Option<Given<'a>>
        ensures { Takes result (take (seen self.entry) (part_view part.entry)) }
    {
        match part {
            Part::File(path) => self.file(path),
            Part::Flag(name) => {
                let asks = Asks::of(name)?;
                Some(Given { asks, ..self })
            }
            Part::Valued { name, value } => self.valued(name, value),
            Part::Wrong => None,
        }
    }

    // What is asked for when there is no part more.
    fn end(self) -> Option<Call<CountRequest<'a>>>
        ensures { Called result (asked (seen self.entry)) }
    {
        match self.asks {
            Asks::Help => Some(Call::Help),
            Asks::Version => Some(Call::Version),
            Asks::Run => {
                let draw = match (self.draw, self.drawn) {
                    (None, None) => DrawSource::Nowhere,
                    (Some(path), None) => DrawSource::File(path),
                    (None, Some(drawn)) => DrawSource::Words(drawn),
                    (Some(_), Some(_)) => return None,
                };
                Some(Call::Run(CountRequest {
                    ballots: self.ballots?,
                    draw,
                    sheet: self.sheet,
                }))
            }
        }
    }
}

impl<'a> CountRequest<'a> {
    // What the words behind the program's name ask for; nothing where they are no call.
    pub fn parse(words: &'a [String]) -> Option<Call<CountRequest<'a>>>
        ensures { Called result (count_call (map string_bytes words.now)) }
    {
        let mut parts = Parts {
            grammar: Grammar::Count,
            words,
            only_files: false,
        };
        parts.try_fold(Given::nothing(), Given::take)?.end()
    }
}
