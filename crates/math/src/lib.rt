// Equations, as math.rs has them: `solve`, `least_squares`. Its medians are crate `medians`.
// They are doors: public entries that check what they are given, with no `requires`.
#![tactic(auto)]

pub mod elimination;
pub mod equations;

ghost use Rattle.std.specs.Prelude.{◌≡◌};
ghost use Rattle.refusal.specs.Numbers.{said_some};
ghost use Rattle.math.specs.Equations.{solve_answer, fit_answer};

use refusal::Refusal;

// Solves n equations; a is their matrix row by row, b their right side. A solution's numbers stand
// first, then +0.
pub fn solve(a: &[f64], b: &[f64], n: usize) -> Result<Option<[f64; 8]>, Refusal>
    ensures { said_some result ≡ solve_answer n a.now b.now }
{
    if n < 1 {
        return Err(Refusal::Size);
    }
    if 8 < n {
        return Err(Refusal::Size);
    }
    if a.len() != n * n {
        return Err(Refusal::Size);
    }
    if b.len() != n {
        return Err(Refusal::Size);
    }
    Ok(equations::on_copies(a, b, n))
}

// Fits n coefficients to samples: the samples' n values one after the other, a target for each.
pub fn least_squares(basis: &[f64], targets: &[f64], n: usize) -> Result<Option<[f64; 8]>, Refusal>
    ensures { said_some result ≡ fit_answer n basis.now targets.now }
{
    if n < 1 {
        return Err(Refusal::Size);
    }
    if 8 < n {
        return Err(Refusal::Size);
    }
    if basis.len() % n != 0 {
        return Err(Refusal::Size);
    }
    if basis.len() / n != targets.len() {
        return Err(Refusal::Size);
    }
    if targets.len() < n {
        return Ok(None);
    }
    let cells = n * n;
    let mut m = [0f64; 64];
    let mut v = [0f64; 8];
    Ok(equations::fit(&mut m[..cells], &mut v[..n], basis, targets, n))
}
