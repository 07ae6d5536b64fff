// Theorems on hull and quad of whole points, each a function with an empty body, so that the gate
// counts it.
ghost use Rattle.whole.specs.Claims.{HullsAre, OutlinesMoved, QuadsClockwise};

// The walk gives the hull: clockwise from the least x, then least y, each vertex once and needed.
pub fn hulls_are()
    ensures { HullsAre }
{}

// Hull and quad of moved points are the moved ones, for every list of points.
pub fn outlines_moved()
    ensures { OutlinesMoved }
{}

// A quad runs clockwise, for every list of points.
pub fn quads_clockwise()
    ensures { QuadsClockwise }
{}
