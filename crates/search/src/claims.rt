// Theorems of this crate.
ghost use Rattle.search.specs.Claims.{SearchEnds, NanSkipped};

// A search over versions up to 64 has ended after its 65 steps.
pub fn search_ends()
    ensures { SearchEnds }
{}

// A sample with a NaN coordinate is skipped; any other is outside the picture where a coordinate is
// below 0, or at or past a side.
pub fn nan_skipped()
    ensures { NanSkipped }
{}
