// Checks a sheet against the ballots of a file, and prints that it is accepted or why it is refused.
#![tactic(auto)]

mod fronts;

use ballots::{BallotFile, Refusal};
use calls::{Call, CheckRequest};
use fronts::check_fronts;
use program::{Ending, Fault, Program, read_ballots, read_sheet};
use std::env::Env;
use std::path::Path;
use std::process::ExitCode;
use std::{env, fs, io, str};

// The system takes no longer path.
const LONGEST_PATH: usize = 4096;

const CHECK: Program = Program {
    name: "check",
    words: "BALLOTS SHEET",
    help: "
Checks the sheet of a count against the ballots, and prints that it is accepted or why it is refused.

  BALLOTS    the file of the ballots
  SHEET      the file that count has written
  --help     prints this
  --version  prints the version
",
};

fn check_files<'a>(rt: &HostRuntime, request: &CheckRequest<'a>) -> Result<(), Ending<'a>> {
    let ballots = fs::open(rt, request.ballots)
        .and_then(|file| read_ballots(rt.alloc(), file))
        .map_err(|error| Ending::unread(request.ballots, &error))?;
    let sheet = fs::open(rt, request.sheet)
        .and_then(|file| read_sheet(rt.alloc(), file))
        .map_err(|error| Ending::unread(request.sheet, &error))?;
    check_fronts(&ballots, &sheet).map_err(|refusal| refused_file(
        request, &ballots, &sheet, refusal,
    ))
}

// The ending of a check that is refused: for the ballots, or else for the sheet.
fn refused_file<'a>(
    request: &CheckRequest<'a>,
    ballots: &[u8],
    sheet: &[u8],
    refusal: Refusal,
) -> Ending<'a> {
    match BallotFile::read(ballots) {
        Err(_) => Ending::Refused {
            file: request.ballots,
            refusal,
            fault: Fault::of_ballots(ballots, refusal),
        },
        Ok(file) => Ending::Refused {
            file: request.sheet,
            refusal,
            fault: Fault::of_sheet(sheet, file.candidates as u8, refusal),
        },
    }
}

// Says how the program ends, and answers the status. Where standard output cannot be written, that is said too.
fn say(rt: &HostRuntime, called: &str, ending: Ending) -> u8 {
    let said = CHECK.said(called, ending);
    let printed = rt.print(&said.out);
    let _ = rt.eprint(&said.err);
    match printed {
        Ok(()) => said.status,
        Err(error) => {
            let said = CHECK.said(called, Ending::unprinted(&error));
            let _ = rt.eprint(&said.err);
            said.status
        }
    }
}

fn run<'a>(rt: &HostRuntime, words: &'a [String]) -> Ending<'a> {
    match CheckRequest::parse(words) {
        None => Ending::WrongCall,
        Some(Call::Help) => Ending::Help,
        Some(Call::Version) => Ending::Version,
        Some(Call::Run(request)) => match check_files(rt, &request) {
            Ok(()) => Ending::Done("accepted\n"),
            Err(ending) => ending,
        },
    }
}

// The words behind the program's name.
fn words(rt: &HostRuntime) -> io::Result<Vec<String>> {
    let mut words = Vec::new(rt.alloc());
    for word in env::args(rt)?.skip(1) {
        words.push(word)?;
    }
    Ok(words)
}

fn main(rt: HostRuntime) -> ExitCode {
    let mut room = [0; LONGEST_PATH];
    let length = rt.arg(0, &mut room).unwrap_or(0);
    let path = str::from_utf8(room.get(..length).unwrap_or(&[])).unwrap_or("");
    let called = Path::new(path).file_name().unwrap_or(CHECK.name);
    let status = match words(&rt) {
        Err(error) => say(&rt, called, Ending::of_words(&error)),
        Ok(words) => say(&rt, called, run(&rt, &words)),
    };
    ExitCode::from(status)
}
