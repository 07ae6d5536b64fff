// Theorems about the definitions, each a function with an empty body.
ghost use Rattle.ieee.specs.Claims.{RootNearest, Decimals};

// No f32 is nearer to the exact root than the one that `root` gives.
pub fn root_nearest()
    ensures { RootNearest }
{}

// Each constant is the value of its format nearest to its decimal.
pub fn decimals()
    ensures { Decimals }
{}
