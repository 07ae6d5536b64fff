// Theorems of this crate.
ghost use Rattle.hull.specs.Claims.{HalvesExact};

// For points k / 2 with k from 0 to 2,048 the f32 hull and quad are those of whole numbers.
pub fn halves_exact()
    ensures { HalvesExact }
{}
