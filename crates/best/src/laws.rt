// The laws of the method: each function's contract is a theorem, over any win function and for lists of ballots.
ghost use Rattle.best.specs.Answers as Answers;
ghost use Rattle.best.specs.Elections as Elections;
ghost use Rattle.best.specs.Laws as Laws;
ghost use Rattle.best.specs.Order as Order;
ghost use Rattle.best.specs.SecondWording as SecondWording;
ghost use Rattle.best.specs.TieBreak as TieBreak;
ghost use Rattle.best.specs.Worked as Worked;

// Ahead is what comparing the strengths of two candidates says.
pub fn ahead_by_strength_holds()
    ensures strengths { Laws.AheadByStrength }
    ensures among { Laws.AheadByVia }
{}

// Best is what comparing strengths says, and that nobody is ahead.
pub fn best_by_strength_holds()
    ensures strengths { Laws.BestByStrength }
    ensures among { Laws.BestByVia }
    ensures unbeaten { Laws.BestUnbeaten }
{}

// Whoever is ahead of one that is ahead of a third is ahead of the third, and nobody is ahead of itself.
pub fn ahead_is_an_order_holds()
    ensures any { Laws.AheadIsAnOrder }
    ensures ballots { Elections.AheadIsAnOrderByBallots }
{}

// Somebody is among the best.
pub fn some_best_holds()
    ensures any { Laws.SomeBest }
    ensures ballots { Elections.SomeBestByBallots }
{}

// A candidate that wins against every other one is the only best.
pub fn condorcet_winner_holds()
    ensures any { Laws.CondorcetWinner }
    ensures ballots { Elections.CondorcetWinnerByBallots }
{}

// A candidate that loses against every other one is not among the best, unless it is alone.
pub fn condorcet_loser_holds()
    ensures any { Laws.CondorcetLoser }
    ensures ballots { Elections.CondorcetLoserByBallots }
{}

// If each candidate of a set that is not empty wins against each outside of it, all the best are in the set.
pub fn dominating_set_holds()
    ensures any { Laws.DominatingSet }
    ensures ballots { Elections.DominatingSetByBallots }
{}

// Where there is a ballot and every ballot puts x over y, x is ahead of y.
pub fn pareto_holds()
    ensures { Elections.Pareto }
{}

// Whoever is among the best and is raised, on one ballot or on many, is still among the best.
pub fn monotonicity_holds()
    ensures any { Laws.Monotonicity }
    ensures one { Elections.MonotonicityByOneBallot }
    ensures many { Elections.MonotonicityByBallots }
{}

// With all ballots reversed, whoever was ahead is behind.
pub fn reversal_symmetry_holds()
    ensures any { Laws.ReversalSymmetry }
    ensures ballots { Elections.ReversalSymmetryByBallots }
{}

// Of a clone set, any may stand in place of any: who else is among the best does not change, nor whether one of them
// is.
pub fn clone_exchange_holds()
    ensures any { Laws.CloneExchange }
    ensures ballots { Elections.CloneExchangeByBallots }
{}

// Of a clone set, any single one may stand in place of all.
pub fn clone_independence_holds()
    ensures any { Laws.CloneIndependence }
    ensures ballots { Elections.CloneIndependenceByBallots }
{}

// Whatever the keys are, they make a tie-break order, by which there is at most one full order. Each candidate stands
// in it once, its first is among the best, and whoever is ahead of another stands before it.
pub fn full_order_holds()
    ensures keys { TieBreak.KeysMakeATieBreak }
    ensures one { Order.OneOrder }
    ensures once { Order.EachStandsOnce }
    ensures first { Order.FirstIsBest }
    ensures ahead { Order.AheadStandsBefore }
{}

// No file has two answers.
pub fn one_answer_holds()
    ensures { Answers.OneAnswer }
{}

// With some of a clone set struck, or all but one, the answer says the same of all others, and of the clone set.
pub fn answers_are_clone_independent()
    ensures independent { Answers.AnswersIndependent }
    ensures both { Answers.BothAgree }
{}

// The best and the strengths of the worked counts are those of the definitions.
pub fn worked_counts_hold()
    ensures { Worked.WorkedCounts }
{}

// The laws once more, in words of their own from the ballots up.
pub fn second_wording_holds()
    ensures somebody { SecondWording.SomebodyWins }
    ensures preceding { SecondWording.PrecedingGoesOn }
    ensures circle { SecondWording.InnerCircleWins }
    ensures up { SecondWording.MovingUpDoesNoHarm }
    ensures turned { SecondWording.TurnedBallotsTurnTheResult }
    ensures clones { SecondWording.ClonesDoNotMatter }
{}
