// What holds of the counts of any vote.
ghost use Rattle.pairwise.specs.Laws.{CountOrderFree, TableOrderFree, StruckCounts};

// The order of the ballots does not matter.
pub fn order_of_ballots_is_free()
    ensures counts { CountOrderFree }
    ensures tables { TableOrderFree }
{}

// Of the candidates that stay, as many ballots put the one over the other where others are struck.
pub fn striking_keeps_counts()
    ensures { StruckCounts }
{}
