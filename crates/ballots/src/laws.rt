// What holds of files.
ghost use Rattle.ballots.specs.Laws.{VotesAccepted, OnlyVotesAccepted, StrikeKeepsRanks};

// The files of votes are accepted, and no other bytes.
pub fn votes_are_accepted()
    ensures all { VotesAccepted }
    ensures only { OnlyVotesAccepted }
{}

// Where a file is accepted and somebody stays, the struck file is accepted and says the same of
// those that stay.
pub fn striking_keeps_ranks()
    ensures { StrikeKeepsRanks }
{}
