// Equations and medians for C: the doors of crates `math` and `medians`. Refusals: 9, then 10.
ghost use Rattle.std.specs.Prelude.{◌≡◌};
ghost use Rattle.laws.specs.Said.{result_of, left_of};
ghost use Rattle.math.specs.Equations.{solve_answer, fit_answer};
ghost use Rattle.medians.specs.Median.{median_answer, mad_sigma_answer, Left};

// The median of values, which come into some other order.
#[unsafe(no_mangle)]
pub extern "C" fn lcr_median(values: &mut [f32], median: &mut f32) -> u32
    ensures answer { result ≡ result_of (median_answer values.old) }
    ensures median { median.new ≡ left_of (median_answer values.old) median.old }
    ensures values { Left (median_answer values.old) values.old values.new }
{
    c_numbers::solutions::put_number(medians::median(values), median)
}

// The median distance from the median, times 1.4826.
#[unsafe(no_mangle)]
pub extern "C" fn lcr_mad_sigma(values: &[f32], sigma: &mut f32) -> u32
    ensures answer { result ≡ result_of (mad_sigma_answer values.now) }
    ensures sigma { sigma.new ≡ left_of (mad_sigma_answer values.now) sigma.old }
{
    c_numbers::solutions::put_number(medians::mad_sigma(values), sigma)
}

// The solution of n equations: its n numbers, then +0.
#[unsafe(no_mangle)]
pub extern "C" fn lcr_solve(a: &[f64], b: &[f64], n: usize, x: &mut [f64; 8]) -> u32
    ensures answer { result ≡ result_of (solve_answer n a.now b.now) }
    ensures x { x.new
        ≡ left_of (solve_answer n a.now b.now) x.old }
{
    c_numbers::solutions::put_solution(math::solve(a, b, n), x)
}

// The fit of n coefficients to samples: its n numbers, then +0.
#[unsafe(no_mangle)]
pub extern "C" fn lcr_least_squares(
    basis: &[f64],
    targets: &[f64],
    n: usize,
    x: &mut [f64; 8],
) -> u32
    ensures answer { result ≡ result_of (fit_answer n basis.now targets.now) }
    ensures x { x.new
        ≡ left_of (fit_answer n basis.now targets.now) x.old }
{
    c_numbers::solutions::put_solution(math::least_squares(basis, targets, n), x)
}
