// Writing a certificate, part by part.
ghost use Rattle.std.specs.Prelude.{◌≡◌, ◌≤◌, length, None};
ghost use Rattle.ballots.specs.Loans.{slice_after};
ghost use Rattle.certificate.specs.inner.Parts.{table_of, entry_by, all_entries, best_in, certificate_in};
ghost use Rattle.certificate.specs.inner.Progress.{HasRoom, Writes};

use crate::Counted;
use ballots::CandidateSet;
use pairwise::{Pairs, Pairwise};
use paths::Strengths;

// A slice that a certificate is written to from the front on, and how far it is written.
#[derive(Drop)]
struct Writer<'a> {
    sheet: &'a mut [u8],
    at: usize,
}

impl Writer<'_> {
    // Writes bytes behind those that are written.
    fn put(&mut self, bytes: &[u8])
        requires { HasRoom bytes.now self.old }
        ensures { Writes bytes.now self.old self.new }
    {
        let end = self.at + bytes.len();
        self.sheet[self.at..end].copy_from_slice(bytes);
        self.at = end;
    }
}

// Writes the number of candidates and the table.
fn write_table(pairwise: &Pairwise, writer: &mut Writer)
    requires { HasRoom (table_of pairwise.now) writer.old }
    ensures { Writes (table_of pairwise.now) writer.old writer.new }
{
    let candidates = pairwise.counts.candidates;
    writer.put(&[candidates as u8]);
    for i in 0..candidates * candidates {
        let number = pairwise.preferring(i / candidates, i % candidates);
        writer.put(&number.to_le_bytes());
    }
}

// Writes the entry of the pair x, y.
#[tactic(auto, using(crate::proofs::Writing::entry_length))]
fn write_entry(strengths: &Strengths, writer: &mut Writer, x: usize, y: usize)
    requires { HasRoom (entry_by strengths.now x y) writer.old }
    ensures { Writes (entry_by strengths.now x y) writer.old writer.new }
{
    let path = strengths.path(x, y);
    writer.put(&strengths.at(x, y).to_le_bytes());
    writer.put(&[path.len() as u8]);
    writer.put(&path);
    writer.put(&strengths.cut(x, y).bits().to_le_bytes());
}

// Writes the entries of all pairs.
fn write_entries(strengths: &Strengths, writer: &mut Writer)
    requires { HasRoom (all_entries strengths.now) writer.old }
    ensures { Writes (all_entries strengths.now) writer.old writer.new }
{
    for (x, y) in Pairs::of(strengths.wins.candidates) {
        write_entry(strengths, writer, x, y);
    }
}

// Writes the certificate to the front of the slice, and answers its length.
pub(crate) fn write_certificate(counted: &Counted, best: CandidateSet, sheet: &mut [u8]) -> usize
    requires room { length (certificate_in counted.now.pairwise) ≤ length sheet.old }
    requires best { best ≡ best_in counted.now.pairwise }
    ensures length { result ≡ length (certificate_in counted.now.pairwise) }
    ensures sheet { sheet.new ≡ slice_after None sheet.old (certificate_in counted.now.pairwise) }
{
    let mut writer = Writer { sheet, at: 0 };
    write_table(&counted.pairwise, &mut writer);
    write_entries(&counted.strengths, &mut writer);
    writer.put(&best.bits().to_le_bytes());
    writer.at
}
