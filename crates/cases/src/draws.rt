// Draws that decide between equals, and draws that are refused.
use crate::votes::{CIRCLE, EVEN, Vote};
use certificate::LONGEST;
use pairwise::CELLS;
use tiebreak::count;

// A count by its name, its vote and its draw.
const DRAWS: [(&str, Vote, &[u8]); 9] = [
    ("no draw, by number", EVEN, &[]),
    ("a draw for 0", EVEN, &[1, 0]),
    ("a draw for 1", EVEN, &[2, 0]),
    ("a draw that decides nothing", EVEN, &[0, 0]),
    ("the first that decides", EVEN, &[0, 0, 2, 0, 1, 0]),
    ("a draw against who is ahead", CIRCLE, &[7, 0]),
    ("a ballot that does not exist", EVEN, &[0, 0, 3, 0]),
    ("a ballot drawn twice", EVEN, &[1, 0, 2, 0, 1, 0]),
    ("half a number", EVEN, &[1, 0, 9]),
];

fn print_count(rt: &HostRuntime, name: &str, bytes: &[u8], draw: &[u8]) -> anyhow::Result<()> {
    let mut table = [0u16; CELLS];
    let mut strengths = [0u16; CELLS];
    let mut sheet = vec![in rt.alloc(); 0u8; LONGEST]?;
    println!(rt; "{name}:")?;
    match count(bytes, draw, &mut table, &mut strengths, &mut sheet) {
        Ok(outcome) => rt.print(outcome.report().as_str())?,
        Err(refusal) => println!(rt; "{refusal}")?,
    }
    Ok(())
}

// Lent slices that are one too short: all three stay as they were.
fn print_short(
    rt: &HostRuntime,
    table: usize,
    strengths: usize,
    sheet: usize,
) -> anyhow::Result<()> {
    let heap = rt.alloc();
    let mut table = vec![in heap; 7u16; table]?;
    let mut strengths = vec![in heap; 7u16; strengths]?;
    let mut sheet = vec![in heap; 7u8; sheet]?;
    let answer = count(
        &EVEN.file(heap)?,
        &[],
        &mut table,
        &mut strengths,
        &mut sheet,
    );
    let changed = table.iter().chain(strengths.iter()).any(|n| *n != 7)
        || sheet.iter().any(|n| *n != 7);
    match answer {
        Ok(outcome) => println!(rt; "room: a sheet of {}, changed {changed}", outcome.length)?,
        Err(refusal) => println!(rt; "room: {refusal}, changed {changed}")?,
    }
    Ok(())
}

pub fn all(rt: &HostRuntime) -> anyhow::Result<()> {
    for (name, vote, draw) in DRAWS {
        print_count(rt, name, &vote.file(rt.alloc())?, draw)?;
    }
    let even = EVEN.file(rt.alloc())?;
    print_count(
        rt,
        "bad ballots before a bad draw",
        even.get(..3).unwrap_or(&[]),
        &[1],
    )?;
    print_short(rt, 3, 4, 27)?;
    print_short(rt, 4, 3, 27)?;
    print_short(rt, 4, 4, 26)?;
    print_short(rt, 4, 4, 27)
}
