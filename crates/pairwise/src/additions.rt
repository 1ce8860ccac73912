// What one ballot adds to the counts.
ghost use Rattle.std.specs.Prelude.{◌≡◌, ℕ, ◌+◌, ◌<◌, ◌≤◌, length, slice_index};
ghost use Rattle.ballots.specs.Format.{most_candidates, most_ballots};
ghost use Rattle.ballots.specs.Ballots.{rank_of};
ghost use Rattle.pairwise.specs.Grids.{cell};
ghost use Rattle.pairwise.specs.Pairwise.{preference};
ghost use Rattle.pairwise.specs.inner.Recent.{row_length, byte, BothBounded};

use crate::CELLS;
use ballots::{Ballot, MOST_CANDIDATES, ROOM};

// How many bytes a row of recent counts has: such rows fill whole registers.
pub(crate) const ROW: usize = ROOM;

// How many bytes the recent counts have.
pub(crate) const RECENT: usize = MOST_CANDIDATES * ROW;

// The ranks, each less one, so that unranked is last and all keys fit a byte. Behind the last
// candidate the key is 0, which nothing is put over: the inner loop of `add_ballot` can run to a
// constant.
fn keys_of(ballot: Ballot<'_>) -> [u8; ROW]
    requires { length ballot.ranks.now ≤ most_candidates }
    ensures ranked { (k : ℕ) → k < length ballot.entry.ranks.now →
        slice_index result k + 1 ≡ rank_of (slice_index ballot.entry.ranks.now k) }
    ensures past { (k : ℕ) → length ballot.entry.ranks.now ≤ k → slice_index result k ≡ 0 }
{
    let mut keys = [0u8; ROW];
    for (i, rank) in ballot.ranks.iter().enumerate() {
        keys[i] = rank.wrapping_sub(1);
    }
    keys
}

// Adds one to the count of each pair whose first candidate the ballot puts over the second: in
// bytes, of which a register holds more than of wider numbers.
pub(crate) fn add_ballot(recent: &mut [u8; RECENT], ballot: Ballot<'_>)
    requires few { length ballot.ranks.now ≤ most_candidates }
    requires room { (x y : ℕ) → x < most_candidates → y < row_length → byte recent.old x y < 255 }
    ensures { (x y : ℕ) → x < most_candidates → y < row_length →
        byte recent.new x y ≡ byte recent.old x y + preference ballot.entry.ranks.now x y }
{
    let keys = keys_of(ballot);
    for (x, key) in keys[..ballot.ranks.len()].iter().enumerate() {
        for (y, other) in keys.iter().enumerate() {
            recent[x * ROW + y] += u8::from(key < other);
        }
    }
}

// The same, straight in the counts: for a ballot that comes alone bytes would not pay.
pub(crate) fn add_to_counts(counts: &mut [u16; CELLS], ballot: Ballot<'_>)
    requires few { length ballot.ranks.now ≤ most_candidates }
    requires room { (x y : ℕ) → x < most_candidates → y < most_candidates →
        cell counts.old x y < most_ballots }
    ensures { (x y : ℕ) → x < most_candidates → y < most_candidates →
        cell counts.new x y ≡ cell counts.old x y + preference ballot.entry.ranks.now x y }
{
    let keys = keys_of(ballot);
    for (x, key) in keys[..ballot.ranks.len()].iter().enumerate() {
        for (y, other) in keys[..MOST_CANDIDATES].iter().enumerate() {
            counts[x * MOST_CANDIDATES + y] += u16::from(key < other);
        }
    }
}

// Adds the counts of the last ballots to those of the ballots before.
pub(crate) fn add_recent(counts: &mut [u16; CELLS], recent: &[u8; RECENT])
    requires room { BothBounded most_ballots counts.old recent.now }
    ensures { (x y : ℕ) → x < most_candidates → y < most_candidates →
        cell counts.new x y ≡ cell counts.old x y + byte recent.now x y }
{
    for x in 0..MOST_CANDIDATES {
        for y in 0..MOST_CANDIDATES {
            counts[x * MOST_CANDIDATES + y] += u16::from(recent[x * ROW + y]);
        }
    }
}
