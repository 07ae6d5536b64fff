// The fallback promoted: the end of `trace` of the Rust's ring.rs.
ghost use Rattle.std.specs.Prelude.{◌≡◌};
ghost use Rattle.finder.specs.Find.{promoted_of};

use ring::quads::{Trace, is_fixed};

// Without a fix the fallback is promoted to it.
pub fn promoted(t: Trace) -> Trace
    ensures { result ≡ promoted_of t }
{
    let f = t.fix;
    if is_fixed(f) {
        return t;
    }
    let quad = t.quad;
    let scores = t.scores;
    let fallback = t.fallback;
    Trace {
        hull: t.hull,
        quad: quad,
        scores: scores,
        fix: fallback,
        fallback: None,
    }
}
