// Sets of candidates, as the bits of a number: so they stand in certificates.
ghost use Rattle.std.specs.Prelude.{◌≡◌, ℕ, ◌^◌, ◌<◌, Bool, true, false, ◌||◌, ◌&&◌, ◌==◌, not, if◌then◌else◌, nat_lt, min, MatchOption};
ghost use Rattle.ballots.specs.Sets.{holds, set_of, room, FirstOf};

use std::marker::Model;

// The number whose bits are the members.
pub type Bits = u32;

// How many candidates a set has room for.
pub const ROOM: usize = Bits::BITS as usize;

// A set of candidates: candidate x is in it where bit x is 1.
#[derive(Clone, Copy, PartialEq, Eq)]
pub struct CandidateSet {
    bits: Bits,
}

// The bit of a candidate, 0 where there is no room for it.
fn bit_of(candidate: usize) -> Bits
    ensures { result ≡ if nat_lt candidate room then 2 ^ candidate else 0 }
{
    if candidate < ROOM { 1 << candidate } else { 0 }
}

impl Model for CandidateSet {
    ghost Value = { ℕ };

    ghost view = { λ set. set.bits };

    ghost inverse = { λ n. record { bits = n } };
}

impl CandidateSet {
    // Nobody.
    pub fn empty() -> CandidateSet
        ensures { result ≡ 0 }
    {
        CandidateSet { bits: 0 }
    }

    // The candidates below n, as far as there is room.
    pub fn all_below(n: usize) -> CandidateSet
        ensures { result ≡ set_of (λ _. true) (min n room) }
    {
        if n < ROOM {
            CandidateSet { bits: (1 << n) - 1 }
        } else {
            CandidateSet { bits: Bits::MAX }
        }
    }

    pub fn from_bits(bits: Bits) -> CandidateSet
        ensures { result ≡ bits }
    {
        CandidateSet { bits }
    }

    pub fn bits(self) -> Bits
        ensures { result ≡ self }
    {
        self.bits
    }

    pub fn contains(self, candidate: usize) -> bool
        ensures { result ≡ holds self candidate }
    {
        candidate < ROOM && (self.bits >> candidate) & 1 == 1
    }

    // The smallest member.
    pub fn first(self) -> Option<usize>
        ensures { MatchOption result (self ≡ 0) (FirstOf self) }
    {
        if self.bits == 0 {
            None
        } else {
            Some(self.bits.trailing_zeros() as usize)
        }
    }

    // Puts the candidate in, where there is room for it.
    pub fn insert(&mut self, candidate: usize)
        ensures members { (x : ℕ) → x < room →
            holds self.new x ≡ (x == candidate || holds self.old x) }
        ensures within { self.new < 2 ^ room }
    {
        self.bits |= bit_of(candidate);
    }

    pub fn remove(&mut self, candidate: usize)
        ensures members { (x : ℕ) → holds self.new x ≡ (holds self.old x && not (x == candidate)) }
        ensures within { self.new < 2 ^ room }
    {
        self.bits &= !bit_of(candidate);
    }
}
