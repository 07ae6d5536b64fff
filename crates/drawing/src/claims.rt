// Theorems, as functions with an empty body: each `ensures` is the statement.
ghost use Rattle.drawing.specs.Claims.{LinesDrawn, NoGaps};

// A line gives its pixels the colour, both ends among them, and leaves every other pixel as it was.
pub fn lines_drawn()
    ensures { LinesDrawn }
{}

// From a point of a line to the next, column and row change by at most one.
pub fn no_gaps()
    ensures { NoGaps }
{}
