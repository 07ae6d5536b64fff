// Counts of rows for C: the entries of crate `noise`. Refusals: 17, then 22.
ghost use Rattle.std.specs.Prelude.{◌≡◌};
ghost use Rattle.laws.specs.Said.{left_of, result_of};
ghost use Rattle.noise.specs.Door.{without_answer, with_answer};

// How many rows of `length` pixels have no outline point.
#[unsafe(no_mangle)]
pub extern "C" fn lcr_rows_without(run: u32, length: u32, count: &mut u64) -> u32
    ensures answer { result ≡ result_of (without_answer run length) }
    ensures count { count.new ≡ left_of (without_answer run length) count.old }
{
    c_pictures::rows::put_count(noise::rows_without(run, length), count)
}

// How many rows of `length` pixels have an outline whose first and last pixel are two places.
#[unsafe(no_mangle)]
pub extern "C" fn lcr_rows_with(
    run: u32,
    length: u32,
    first: u32,
    last: u32,
    count: &mut u64,
) -> u32
    ensures answer { result ≡ result_of (with_answer run length first last) }
    ensures count { count.new
        ≡ left_of (with_answer run length first last) count.old }
{
    c_pictures::rows::put_count(noise::rows_with(run, length, first, last), count)
}
