// What holds of the paths of any wins.
ghost use Rattle.paths.specs.Laws.{OneStrength, ViaStrongest, RowShowsStrongest, PathShown, CutBounds, PathAndCut};

// Each two candidates have one strength, that of the strongest path.
pub fn strengths_hold()
    ensures one { OneStrength }
    ensures strongest { ViaStrongest }
{}

// The row of a pair is a strongest path, with no candidate twice, and so is the path among any candidates that stand.
pub fn paths_hold()
    ensures row { RowShowsStrongest }
    ensures path { PathShown }
{}

// No path is stronger than the wins across a cut.
pub fn cuts_hold()
    ensures { CutBounds }
{}

// A path and a cut of one strength show it to be the strength.
pub fn path_and_cut_hold()
    ensures { PathAndCut }
{}
