// Counts the ballots of a file, and prints the outcome or why the count is refused.
#![tactic(auto)]

mod fronts;
mod reading;
mod sheet;

use ballots::{BallotFile, Refusal};
use calls::{Call, CountRequest, DrawSource};
use certificate::LONGEST;
use fronts::count_fronts;
use pairwise::CELLS;
use program::{Ending, Fault, Program};
use reading::{read_ballots, read_draw};
use sheet::Sheet;
use std::env::Env;
use std::path::Path;
use std::process::ExitCode;
use std::{env, io, str};

// The system takes no longer path.
const LONGEST_PATH: usize = 4096;

const COUNT: Program = Program {
    name: "count",
    words: "BALLOTS [DRAW] [--sheet FILE] [--drawn N,N,..]",
    help: "
Counts the ballots of a file by the Schulze method, and prints the outcome.

  BALLOTS         the file of the ballots
  DRAW            a file with the numbers of drawn ballots, which decide between equals
  --drawn N,N,..  drawn ballots as numbers, in place of the file
  --sheet FILE    writes the sheet, by which anybody can check the outcome, to FILE
  --help          prints this
  --version       prints the version
",
};

// Counts, prints the outcome, and writes the sheet.
fn count_files<'a>(rt: &HostRuntime, request: &CountRequest<'a>) -> Result<(), Ending<'a>> {
    let sheet_file = Sheet::find(rt, request)?;
    let ballots = read_ballots(rt, request.ballots)?;
    let draw = read_draw(rt, request.draw)?;
    let line = match request.draw {
        DrawSource::Words(drawn) => drawn.line(rt.alloc())?,
        DrawSource::Nowhere | DrawSource::File(_) => String::new(rt.alloc()),
    };
    // Ballots that are refused take no room for a sheet.
    let room = if BallotFile::read(&ballots).is_ok() {
        LONGEST
    } else {
        0
    };
    let mut table = [0u16; CELLS];
    let mut strengths = [0u16; CELLS];
    let mut sheet = vec![in rt.alloc(); 0u8; room]?;
    let outcome = match count_fronts(&ballots, &draw, &mut table, &mut strengths, &mut sheet) {
        Ok(outcome) => outcome,
        Err(refusal) => return Err(refused(request, &ballots, &draw.bytes, refusal)),
    };
    print(rt, outcome.report().as_str())?;
    print(rt, line.as_str())?;
    match sheet_file {
        None => Ok(()),
        Some(file) => file.write(rt, sheet.get(..outcome.length).unwrap_or(&[])),
    }
}

// The ending where the count is refused: for the ballots, and where these are accepted for the draw.
fn refused<'a>(
    request: &CountRequest<'a>,
    ballots: &[u8],
    draw: &[u8],
    refusal: Refusal,
) -> Ending<'a> {
    match BallotFile::read(ballots) {
        Err(_) => Ending::Refused {
            file: request.ballots,
            refusal,
            fault: Fault::of_ballots(ballots, refusal),
        },
        Ok(file) => Ending::Refused {
            file: match request.draw {
                DrawSource::File(path) => path,
                DrawSource::Nowhere | DrawSource::Words(_) => "--drawn",
            },
            refusal,
            fault: Fault::of_draw(draw, file.ballots, refusal),
        },
    }
}

fn print<'a>(rt: &HostRuntime, text: &str) -> Result<(), Ending<'a>> {
    rt.print(text).map_err(|error| Ending::unprinted(&error))
}

// Says how the program ends, and answers the status. Where standard output cannot be written, that is said too.
fn say(rt: &HostRuntime, called: &str, ending: Ending) -> u8 {
    let said = COUNT.said(called, ending);
    let printed = rt.print(&said.out);
    let _ = rt.eprint(&said.err);
    match printed {
        Ok(()) => said.status,
        Err(error) => {
            let said = COUNT.said(called, Ending::unprinted(&error));
            let _ = rt.eprint(&said.err);
            said.status
        }
    }
}

fn run<'a>(rt: &HostRuntime, words: &'a [String]) -> Ending<'a> {
    match CountRequest::parse(words) {
        None => Ending::WrongCall,
        Some(Call::Help) => Ending::Help,
        Some(Call::Version) => Ending::Version,
        Some(Call::Run(request)) => match count_files(rt, &request) {
            Ok(()) => Ending::Done(""),
            Err(ending) => ending,
        },
    }
}

// The words behind the program's name.
fn words(rt: &HostRuntime) -> io::Result<Vec<String>> {
    let mut words = Vec::new(rt.alloc());
    for word in env::args(rt)?.skip(1) {
        words.push(word)?;
    }
    Ok(words)
}

fn main(rt: HostRuntime) -> ExitCode {
    let mut room = [0; LONGEST_PATH];
    let length = rt.arg(0, &mut room).unwrap_or(0);
    let path = str::from_utf8(room.get(..length).unwrap_or(&[])).unwrap_or("");
    let called = Path::new(path).file_name().unwrap_or(COUNT.name);
    let status = match words(&rt) {
        Err(error) => say(&rt, called, Ending::of_words(&error)),
        Ok(words) => say(&rt, called, run(&rt, &words)),
    };
    ExitCode::from(status)
}
