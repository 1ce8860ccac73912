// Reading a certificate from its front on.
ghost use Rattle.std.specs.Prelude.{◌≤◌, length};

use crate::Number;
use ballots::{Bits, CandidateSet, Refusal};

// A certificate, and how far it is read.
#[derive(Drop)]
pub(crate) struct Reader<'a> {
    sheet: &'a [u8],
    at: usize,
    ghost within: { at ≤ length sheet.now },
}

impl<'a> Reader<'a> {
    ghost use Rattle.std.specs.Prelude.{◌≡◌, ◌+◌, take, drop, IfOk, nat_le, slice_index};
    ghost use Rattle.ballots.specs.declared.refusal.Refusal.TheVariants.{Length};
    ghost use Rattle.ballots.specs.Loans.{result_of};
    ghost use Rattle.certificate.specs.Layout.{number_size, set_size};
    ghost use Rattle.certificate.specs.Reading.{number_at, set_at};
    ghost use Rattle.certificate.specs.Judge.{unless, ends_before};
    ghost use Rattle.certificate.specs.inner.Progress.{Reads, ReadsBytes, Passes};

    pub(crate) fn new(sheet: &'a [u8]) -> Reader<'a>
        ensures front { result.at ≡ 0 }
        ensures whole { result.sheet.now ≡ sheet.now }
    {
        Reader { sheet, at: 0 }
    }

    // Why more bytes are not read.
    fn too_short(&self) -> Refusal
        ensures { result ≡ Length (length self.now.sheet.now) }
    {
        Refusal::Length {
            at: self.sheet.len(),
        }
    }

    // The next bytes, as many as are asked for.
    pub(crate) fn take(&mut self, count: usize) -> Result<&'a [u8], Refusal>
        ensures reads { let end = self.old.at + count in
            Reads (ends_before self.old.sheet.now end) end self.old self.new result }
        ensures bytes { let left = drop self.old.at self.old.sheet.now in
            IfOk result (λ b. b.now ≡ take count left) }
    {
        let bytes = self.sheet[self.at..].get(..count).ok_or(self.too_short())?;
        self.at += count;
        Ok(bytes)
    }

    // The next bytes, as many as the array has.
    fn array<const N: usize>(&mut self) -> Result<[u8; N], Refusal>
        ensures { ReadsBytes N (λ bs p. take N (drop p bs)) self.old self.new result }
    {
        let array = self.sheet[self.at..]
            .first_chunk::<N>()
            .ok_or(self.too_short())?;
        self.at += N;
        Ok(*array)
    }

    pub(crate) fn byte(&mut self) -> Result<u8, Refusal>
        ensures { ReadsBytes 1 slice_index self.old self.new result }
    {
        let [byte] = self.array::<1>()?;
        Ok(byte)
    }

    #[tactic(auto, unfolding(crate::specs::Reading::number_at))]
    pub(crate) fn number(&mut self) -> Result<Number, Refusal>
        ensures { ReadsBytes number_size number_at self.old self.new result }
    {
        Ok(Number::from_le_bytes(self.array()?))
    }

    #[tactic(auto, unfolding(crate::specs::Reading::set_at))]
    pub(crate) fn set(&mut self) -> Result<CandidateSet, Refusal>
        ensures { ReadsBytes set_size set_at self.old self.new result }
    {
        let bits = Bits::from_le_bytes(self.array()?);
        Ok(CandidateSet::from_bits(bits))
    }

    // Goes on past bytes that have to stand next.
    pub(crate) fn pass(&mut self, bytes: &[u8]) -> Result<(), Refusal>
        ensures { Passes bytes.now self.old self.new result }
    {
        for byte in bytes {
            let at = self.at;
            if self.byte()? != *byte {
                return Err(Refusal::Table { at });
            }
        }
        Ok(())
    }

    // Refuses bytes behind those that are read.
    pub(crate) fn finish(&self) -> Result<(), Refusal>
        ensures { let at = self.now.at in
            result ≡ result_of (unless (nat_le (length self.now.sheet.now) at) (Length at)) tt }
    {
        if self.at < self.sheet.len() {
            return Err(Refusal::Length { at: self.at });
        }
        Ok(())
    }
}
