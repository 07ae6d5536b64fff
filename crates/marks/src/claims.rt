// Theorems on ring marks, as functions with an empty body: each `ensures` is the statement.
ghost use Rattle.marks.specs.Claims.{PosesMoved, ScoreRises, BestByScores, SplitSettles};

// Demand 3 on marks: moved marks agree at the moved poses as often.
pub fn poses_moved()
    ensures { PosesMoved }
{}

// Within one version more agreement is a greater score.
pub fn score_rises()
    ensures { ScoreRises }
{}

// The first greatest count is what comparing scores in order finds.
pub fn best_by_scores()
    ensures { BestByScores }
{}

// A window's split at the round at which it has settled is the one that four rounds give.
pub fn split_settles()
    ensures { SplitSettles }
{}
