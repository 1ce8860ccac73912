// What holds of every draw.
ghost use Rattle.tiebreak.specs.Draws.{DrawsAccepted, DrawsRefused, BallotsMakeATieBreak};

// Whatever is drawn, of two candidates one is before the other, and the order is strict.
pub fn draw_is_a_tie_break_holds()
    ensures { BallotsMakeATieBreak }
{}

// A draw is accepted exactly if its length is even, each of its numbers is that of a ballot, and none comes twice; else, where
// the length is even, it is refused at the first number with which that ends.
pub fn draws_are_accepted()
    ensures accepted { DrawsAccepted }
    ensures refused { DrawsRefused }
{}
