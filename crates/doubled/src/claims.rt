// Theorems on hull and quad in whole numbers, as functions with an empty body: each `ensures` is the
// statement.
ghost use Rattle.doubled.specs.Claims.{WholeOutlines, SameAsFloats, DoubledIs};

// For every list of points: all of them lie on or inside the hull, its vertices are points, no
// vertex lies on or inside the hull of the others, their order is that of rule 18, and no other list has all
// this; a quad runs clockwise.
pub fn whole_outlines()
    ensures { WholeOutlines }
{}

// For doubled coordinates up to 2,048 the f32 hull and quad are those in whole numbers.
pub fn same_as_floats()
    ensures { SameAsFloats }
{}

// The f32 numbers of points in doubled coordinates up to 8,192, doubled, are these coordinates.
pub fn doubled_is()
    ensures { DoubledIs }
{}
