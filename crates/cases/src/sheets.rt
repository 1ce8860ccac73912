// Certificates, damaged in every way that a refusal names.
use crate::votes::CIRCLE;
use anyhow::ensure;
use certificate::{LONGEST, certify, check};
use pairwise::CELLS;
use std::alloc::Global;

// A damage by its name, a place in the circle's certificate, and the byte that is put there. The entries of the circle,
// 0 over 1 with 6, 1 over 2 with 7, 2 over 0 with 5, start at 19, 28, 38, 48, 57 and 66: two bytes of strength, the
// count of the path, the path, the cut.
const DAMAGES: [(&str, usize, u8); 34] = [
    ("other v", 0, 4),
    ("first byte of the table", 1, 1),
    ("last byte of the table", 18, 1),
    ("first path starts elsewhere", 22, 2),
    ("last path starts elsewhere", 69, 1),
    ("first path ends elsewhere", 23, 0),
    ("last path ends elsewhere", 71, 2),
    ("first path with a step that is no win", 23, 2),
    ("last path with a step that is no win", 70, 2),
    ("first path with a candidate from v on", 23, 3),
    ("last path with a candidate from v on", 70, 255),
    ("first path of one candidate", 21, 1),
    ("last path of one candidate", 68, 1),
    ("first strength too high", 19, 7),
    ("last strength too high", 66, 6),
    ("first strength too low", 19, 5),
    ("last strength too low", 66, 4),
    ("first strength's high byte", 20, 1),
    ("last strength's high byte", 67, 1),
    ("first cut without x", 24, 4),
    ("last cut without x", 72, 1),
    ("first cut with y", 24, 3),
    ("last cut with y", 72, 6),
    ("first cut with bit v", 24, 9),
    ("last cut with bit v", 72, 12),
    ("first cut with a last bit", 27, 128),
    ("second cut with too strong a win across", 34, 3),
    ("last cut with too strong a win across", 72, 5),
    ("best with one more", 76, 3),
    ("best with one fewer", 76, 0),
    ("best with bit v", 76, 9),
    ("best with a last bit", 79, 128),
    ("first cut, another one", 24, 5),
    ("nothing changed", 0, 3),
];

fn print_verdict(rt: &HostRuntime, name: &str, file: &[u8], sheet: &[u8]) -> anyhow::Result<()> {
    match check(file, sheet) {
        Ok(()) => println!(rt; "{name}: accepted")?,
        Err(refusal) => println!(rt; "{name}: {refusal}")?,
    }
    Ok(())
}

fn certificate(heap: Global, file: &[u8]) -> anyhow::Result<Vec<u8>> {
    let mut table = [0u16; CELLS];
    let mut strengths = [0u16; CELLS];
    let mut sheet = vec![in heap; 0u8; LONGEST]?;
    let certified = certify(file, &mut table, &mut strengths, &mut sheet)?;
    sheet.truncate(certified.length);
    Ok(sheet)
}

fn print_damages(rt: &HostRuntime, file: &[u8], sheet: &[u8]) -> anyhow::Result<()> {
    for (name, at, byte) in DAMAGES {
        let mut damaged = sheet.to_vec(rt.alloc())?;
        if let Some(place) = damaged.get_mut(at) {
            *place = byte;
        }
        print_verdict(rt, name, file, &damaged)?;
    }
    Ok(())
}

// Cut short before, in and behind each part.
fn print_cuts(rt: &HostRuntime, file: &[u8], sheet: &[u8]) -> anyhow::Result<()> {
    for end in [0, 1, 18, 20, 21, 22, 26, 67, 68, 70, 74, 78, 80usize] {
        if let Some(cut) = sheet.get(..end) {
            print!(rt; "{end} bytes ")?;
            print_verdict(rt, "of the sheet", file, cut)?;
        }
    }
    Ok(())
}

// With bytes put in: one too many, a path that passes candidates twice, and strengths of 0 with empty paths.
fn print_others(rt: &HostRuntime, file: &[u8], sheet: &[u8]) -> anyhow::Result<()> {
    ensure!(
        sheet.len() == 80,
        "the circle's certificate has another length"
    );
    let heap = rt.alloc();
    let long = [sheet, &[0]].concat(heap)?;
    print_verdict(rt, "a byte too many", file, &long)?;
    let twice = [&sheet[0..68], &[6, 2, 0, 1, 2, 0, 1], &sheet[72..]].concat(heap)?;
    print_verdict(rt, "last path, another one", file, &twice)?;
    let none = [
        &sheet[0..19],
        &[0, 0, 0, 1, 0, 0, 0],
        &[0, 0, 0, 3, 0, 0, 0],
        &[0, 0, 0, 2, 0, 0, 0],
        &[0, 0, 0, 2, 0, 0, 0],
        &[0, 0, 0, 4, 0, 0, 0],
        &[0, 0, 0, 4, 0, 0, 0],
        &[7, 0, 0, 0],
    ]
    .concat(heap)?;
    print_verdict(rt, "strengths of 0 with empty paths", file, &none)
}

pub fn all(rt: &HostRuntime) -> anyhow::Result<()> {
    let file = CIRCLE.file(rt.alloc())?;
    let sheet = certificate(rt.alloc(), &file)?;
    print_damages(rt, &file, &sheet)?;
    print_cuts(rt, &file, &sheet)?;
    print_others(rt, &file, &sheet)
}
