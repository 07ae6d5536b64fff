// Theorems, as functions with an empty body: each `ensures` is the statement.
ghost use Rattle.shadow.specs.Claims.{Shadow, NotTen, DoorsPast};

// Pictures that differ in one level cell have equal thresholds and ink more than 11 columns or more
// than 11 rows away from it, and 11 cannot be 10.
pub fn shadow()
    ensures { Shadow }
{}

// The pair of pictures by which 11 cannot be 10, by itself.
pub fn not_ten()
    ensures { NotTen }
{}

// The level grids that the picture door leaves for two such pictures are equal at those cells, and
// so is the ink by them.
pub fn doors_shadow()
    ensures { DoorsPast }
{}
