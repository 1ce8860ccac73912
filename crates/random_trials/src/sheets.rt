// The certificates of random files, as they are written and damaged. They are judged by a reader that shares no code
// with the writer and the checker.
ghost use Rattle.std.specs.Prelude.{◌≤◌, length, IfSome};

use crate::random::Random;
use certificate::{certify, check};
use pairwise::CELLS;
use slow_count::{MOST, SlowCount, passes_twice};
use std::alloc::AllocError;

// How often the certificate of a file is damaged, each time as it was written.
const DAMAGES: u8 = 10;

// How many bytes there is room for in a certificate: the longest one.
pub const ROOM: usize = 1 + MOST * MOST * 2 + MOST * (MOST - 1) * (7 + MOST) + 4;

// How many of the damaged certificates were refused, how many were accepted, and how many of these have a path that
// passes a candidate twice.
#[derive(Clone, Copy, Default)]
pub struct Verdicts {
    pub refused: u32,
    pub accepted: u32,
    pub twice: u32,
}

// How often a path may pass a candidate.
#[derive(Clone, Copy)]
pub enum Passing {
    Once,
    Any,
}

impl Passing {
    fn allows(self, row: &[u8]) -> bool {
        match self {
            Passing::Once => !passes_twice(row),
            Passing::Any => true,
        }
    }
}

// What a certificate says of a pair: the strength, the path that shows it and the cut that bounds it.
#[derive(Clone, Copy)]
struct Entry<'a> {
    strength: u16,
    row: &'a [u8],
    cut: u32,
}

impl Entry<'_> {
    fn is_right(&self, slow: &SlowCount<'_>, x: usize, y: usize, passing: Passing) -> bool {
        u32::from(self.strength) == slow.strengths.at(x, y)
            && slow.is_path(x, y, self.row)
            && passing.allows(self.row)
            && slow.is_cut(x, y, u64::from(self.cut))
    }
}

// What of a certificate was not read yet.
#[derive(Drop)]
struct Reader<'a> {
    rest: &'a [u8],
}

impl<'a> Reader<'a> {
    // The next bytes; nothing where some are missing, as with all that is read.
    fn take(&mut self, length: usize) -> Option<&'a [u8]> {
        let (taken, rest) = self.rest.split_at_checked(length)?;
        self.rest = rest;
        Some(taken)
    }

    fn array<const N: usize>(&mut self) -> Option<[u8; N]> {
        let (first, rest) = self.rest.split_first_chunk()?;
        self.rest = rest;
        Some(*first)
    }

    fn byte(&mut self) -> Option<u8> {
        let [byte] = self.array::<1>()?;
        Some(byte)
    }

    fn number(&mut self) -> Option<u16> {
        Some(u16::from_le_bytes(self.array()?))
    }

    fn set(&mut self) -> Option<u32> {
        Some(u32::from_le_bytes(self.array()?))
    }

    fn entry(&mut self) -> Option<Entry<'a>> {
        let strength = self.number()?;
        let length = self.byte()?;
        let row = self.take(usize::from(length))?;
        let cut = self.set()?;
        Some(Entry { strength, row, cut })
    }

    // Whether the table is that of the slow count.
    fn has_table(&mut self, slow: &SlowCount<'_>) -> bool {
        for x in 0..usize::from(slow.file.candidates()) {
            for y in 0..usize::from(slow.file.candidates()) {
                if self.number().map(u32::from) != Some(slow.counts.at(x, y)) {
                    return false;
                }
            }
        }
        true
    }

    // Whether the entries are right.
    fn has_entries(&mut self, slow: &SlowCount<'_>, passing: Passing) -> bool {
        for x in 0..usize::from(slow.file.candidates()) {
            for y in 0..usize::from(slow.file.candidates()) {
                if x != y
                    && !self
                        .entry()
                        .is_some_and(|entry| entry.is_right(slow, x, y, passing))
                {
                    return false;
                }
            }
        }
        true
    }
}

// Whether the certificate has all that it should have, with nothing behind it.
pub fn is_as_said(slow: &SlowCount<'_>, sheet: &[u8], passing: Passing) -> bool {
    let mut reader = Reader { rest: sheet };
    reader.byte() == Some(slow.file.candidates())
        && reader.has_table(slow)
        && reader.has_entries(slow, passing)
        && reader
            .set()
            .is_some_and(|set| slow.is_best_set(u64::from(set)))
        && reader.rest.is_empty()
}

// What a byte is changed by: anything, a bit, or a little, as a candidate or a small cut becomes another one.
fn change(random: &mut Random) -> u8 {
    match random.below(3) {
        0 => random.below(255) + 1,
        1 => 1u8.rotate_left(u32::from(random.below(8))),
        _ => random.below(7) + 1,
    }
}

// The certificate with one byte changed.
fn changed(random: &mut Random, sheet: &[u8]) -> Result<Vec<u8>, AllocError> {
    let mut other = sheet.to_vec(random.heap)?;
    if let Some(byte) = other.get_mut(random.place(sheet.len())) {
        *byte ^= change(random);
    }
    Ok(other)
}

// The certificate with one byte less, or one more.
fn resized(random: &mut Random, sheet: &[u8]) -> Result<Vec<u8>, AllocError> {
    let mut other = sheet.to_vec(random.heap)?;
    if random.once_in(2) {
        let _ = other.pop();
    } else {
        other.push(random.below(2))?;
    }
    Ok(other)
}

// The place of the length of some path.
fn path_place(random: &mut Random, sheet: &[u8]) -> Option<usize>
    ensures { IfSome result (λ place. place ≤ length sheet.now) }
{
    let mut reader = Reader { rest: sheet };
    let candidates = usize::from(reader.byte()?);
    let _ = reader.take(candidates * candidates * 2)?;
    for _ in 0..random.place(candidates * candidates.saturating_sub(1)) {
        let _ = reader.entry()?;
    }
    let _ = reader.number()?;
    Some(sheet.len().saturating_sub(reader.rest.len()))
}

// The certificate with a detour put into some path: from a candidate on it over two others and back.
fn lengthened(random: &mut Random, sheet: &[u8]) -> Result<Vec<u8>, AllocError> {
    let place = path_place(random, sheet).unwrap_or(0);
    let length = sheet.get(place).copied().unwrap_or(0);
    let candidates = sheet.first().copied().unwrap_or(0);
    let turn = place + 1 + usize::from(random.below(length));
    let mut other = sheet.to_vec(random.heap)?;
    if let Some(byte) = other.get_mut(place) {
        *byte = length.wrapping_add(3);
    }
    if let Some(byte) = sheet.get(turn) {
        let detour = [random.below(candidates), random.below(candidates), *byte];
        let _ = other.splice(turn + 1..turn + 1, detour)?;
    }
    Ok(other)
}

fn damaged(random: &mut Random, sheet: &[u8]) -> Result<Vec<u8>, AllocError> {
    match random.below(8) {
        0 => resized(random, sheet),
        1 | 2 => lengthened(random, sheet),
        _ => changed(random, sheet),
    }
}

impl Verdicts {
    // Whether the checker accepts the certificate exactly if it is as said; its verdict is counted.
    fn agrees(&mut self, slow: &SlowCount<'_>, sheet: &[u8]) -> bool {
        let accepted = check(slow.file.bytes, sheet).is_ok();
        let right = is_as_said(slow, sheet, Passing::Any);
        let simple = is_as_said(slow, sheet, Passing::Once);
        self.refused = self.refused.saturating_add(u32::from(!accepted));
        self.accepted = self.accepted.saturating_add(u32::from(accepted));
        self.twice = self.twice.saturating_add(u32::from(right && !simple));
        accepted == right
    }

    // The damaged certificate that the checker is wrong on.
    fn wrong_on(
        &mut self,
        random: &mut Random,
        slow: &SlowCount<'_>,
        sheet: &[u8],
    ) -> Result<Option<Vec<u8>>, AllocError> {
        for _ in 0..DAMAGES {
            let other = damaged(random, sheet)?;
            if !self.agrees(slow, &other) {
                return Ok(Some(other));
            }
        }
        Ok(None)
    }

    // The certificate that is wrong, or that the checker is wrong on.
    pub fn wrong_sheet(
        &mut self,
        random: &mut Random,
        slow: &SlowCount<'_>,
    ) -> Result<Option<Vec<u8>>, AllocError> {
        let mut table = [0u16; CELLS];
        let mut strengths = [0u16; CELLS];
        let mut sheet = vec![in random.heap; 0u8; ROOM]?;
        let Ok(certified) = certify(slow.file.bytes, &mut table, &mut strengths, &mut sheet) else {
            return Ok(Some(sheet));
        };
        sheet.truncate(certified.length);
        if !slow.is_best_set(u64::from(certified.best.bits()))
            || !is_as_said(slow, &sheet, Passing::Once)
            || check(slow.file.bytes, &sheet).is_err()
        {
            return Ok(Some(sheet));
        }
        self.wrong_on(random, slow, &sheet)
    }
}
