// The text of an outcome, in a fixed room.
ghost use Rattle.std.specs.Prelude.{◌≡◌, ◌+◌, ◌<◌, ◌≤◌, [], ◌∷◌, ◌++◌, All, length, codes};
ghost use Rattle.ballots.specs.Format.{most_candidates};
ghost use Rattle.ballots.specs.Sets.{holds, members, room};
ghost use Rattle.pairwise.specs.Grids.{number_for};
ghost use Rattle.tiebreak.specs.Reports.{number_text, numbers_text, text_of_lines, best_line, ahead_lines, order_line, lines_of};

use arrayvec::ArrayString;
use ballots::{CandidateSet, MOST_CANDIDATES, ROOM};
use itoa::Buffer;
use pairwise::Grid;

// The longest line of the best: a number of five digits, and numbers of two.
const BEST_ROOM: usize = 6 + 6 + 5 + ROOM * 3 + 1;

// The longest line of a pair: two numbers of two digits, and two of five.
const AHEAD_ROOM: usize = 5 + 3 + 3 + 6 + 6 + 1;

// The longest line of the order: numbers of twenty digits, of which the type knows no better.
const ORDER_ROOM: usize = 5 + MOST_CANDIDATES * 21 + 1;

// No report is longer, even with a line for every pair.
pub const LONGEST_REPORT: usize = BEST_ROOM
    + MOST_CANDIDATES * (MOST_CANDIDATES - 1) * AHEAD_ROOM
    + ORDER_ROOM;

// The text of a report.
pub type Report = ArrayString<LONGEST_REPORT>;

// Puts a number behind the text, after a space.
fn push_number(text: &mut Report, number: usize)
    requires { length text.old.bytes + length (number_text number) ≤ LONGEST_REPORT }
    ensures { text.new.bytes ≡ text.old.bytes ++ number_text number }
{
    text.push_str(" ");
    text.push_str(Buffer::new().format(number));
}

// Puts the line of the pair x, y behind the text, where x is ahead of y.
#[tactic(auto, using(crate::proofs::Room::digits))]
pub(crate) fn push_ahead(text: &mut Report, strengths: &Grid, x: usize, y: usize)
    requires pair { (x < most_candidates) × (y < most_candidates) }
    requires room { length text.old.bytes + AHEAD_ROOM ≤ LONGEST_REPORT }
    ensures bytes { let lines = ahead_lines (number_for strengths.now) (x, y) in
        text.new.bytes ≡ text.old.bytes ++ text_of_lines lines }
    ensures len { length text.new.bytes ≤ length text.old.bytes + AHEAD_ROOM }
{
    let there = strengths.at(x, y);
    let back = strengths.at(y, x);
    if there > back {
        text.push_str("ahead");
        push_number(text, x);
        push_number(text, y);
        push_number(text, usize::from(there));
        push_number(text, usize::from(back));
        text.push_str("\n");
    }
}

// Puts the line of the best behind the text.
#[tactic(auto, using(std::proofs::lemmas::Grind::common_steps))]
pub(crate) fn push_best(text: &mut Report, ballots: u16, best: CandidateSet)
    requires { let line = best_line ballots (members (holds best) room) in
        length text.old.bytes + length line + 1 ≤ LONGEST_REPORT }
    ensures { let line = best_line ballots (members (holds best) room) in
        text.new.bytes ≡ text.old.bytes ++ (line ++ codes "\n") }
{
    text.push_str("papers");
    push_number(text, usize::from(ballots));
    text.push_str(" best");
    for x in best.iter() {
        push_number(text, x);
    }
    text.push_str("\n");
}

// Puts the line of the order behind the text.
#[tactic(auto, using(std::proofs::lemmas::Grind::common_steps))]
pub(crate) fn push_order(text: &mut Report, places: &[usize])
    requires few { length places.now ≤ most_candidates }
    requires room { length text.old.bytes + ORDER_ROOM ≤ LONGEST_REPORT }
    ensures { text.new.bytes ≡ text.old.bytes ++ (order_line places.now ++ codes "\n") }
{
    text.push_str("order");
    for candidate in places {
        push_number(text, *candidate);
    }
    text.push_str("\n");
}
