// Theorems, as functions with an empty body: each `ensures` is the statement.
ghost use Rattle.turned.specs.Accepts.{DoorsAccept};
ghost use Rattle.turned.specs.Claims.{Demand3};
ghost use Rattle.turned.specs.Doors.{DoorsMoved};
ghost use Rattle.turned.specs.Stars.{Stars};

// Demand 3: a picture turned or mirrored has the moved thresholds, ink, groups, regions, boundary
// points, hulls and quads; ring marks shifted or reversed have the same counts at the moved poses.
pub fn demand_3()
    ensures { Demand3 }
{}

// The doors carry demand 3: what they answer and leave in lent memory for a picture and for the
// moved picture is moved alike.
pub fn doors_moved()
    ensures { DoorsMoved }
{}

// The calls that `doors_moved` speaks of are there: the doors accept a picture taken, moved or not.
pub fn doors_accept()
    ensures { DoorsAccept }
{}

// The lines of rule 49, as one table.
pub fn stars()
    ensures { Stars }
{}
