// Calls of the doors of equations and medians. An f64 is two words, an f32 one.
//     300 solve n, cells, rows, a.., b..           0, 1, eight f64; 0, 0 for none; 9
//     301 least_squares n, values, samples, ..     0, 1, eight f64; 0, 0 for none; 9
//     302 median values..                          0, the median, the values after it; 9; 10
//     303 mad_sigma values..                       0, the answer; 9; 10
// At most 2,048 numbers in either list of 300 and 301, at most 5,000 in that of 302 and 303.
#![tactic(auto)]

ghost use Rattle.std.specs.Prelude.{◌≡◌, ◌≤◌, length};

use refusal::Refusal;
use word_numbers::floats;

pub fn answer(kind: u32, args: &[u32], out: &mut [u32]) -> usize {
    match kind {
        302 => median(args, out),
        303 => mad_sigma(args, out),
        _ if 3 <= args.len() => lists(kind, args, out),
        _ => 0,
    }
}

// A call with two lists of f64, which begin behind their lengths.
fn lists(kind: u32, args: &[u32], out: &mut [u32]) -> usize
    requires { 3 ≤ length args.now }
{
    let n = word_numbers::many(args[0]);
    let first = word_numbers::many(args[1]);
    let second = word_numbers::many(args[2]);
    if 2048 < first {
        return 0;
    }
    if 2048 < second {
        return 0;
    }
    let rest = 3 + 2 * first;
    if args.len() < rest {
        return 0;
    }
    let mut x: [f64; 2048] = room(0.0);
    let mut y: [f64; 2048] = room(0.0);
    floats::read64(&args[3..], &mut x);
    floats::read64(&args[rest..], &mut y);
    equations(kind, n, &x[..first], &y[..second], out)
}

// Room for the longest list.
fn room<T: Copy, const N: usize>(zero: T) -> [T; N]
    ensures { N ≡ length result }
{
    [zero; N]
}

// Calls the door.
fn equations(kind: u32, n: usize, a: &[f64], b: &[f64], out: &mut [u32]) -> usize {
    if kind == 300 {
        return solution(math::solve(a, b, n), out);
    }
    solution(math::least_squares(a, b, n), out)
}

fn solution(s: Result<Option<[f64; 8]>, Refusal>, out: &mut [u32]) -> usize {
    match s {
        Ok(Some(x)) => eight(x, out),
        Ok(None) => word_numbers::two(out, 0, 0),
        Err(r) => word_numbers::one(out, r.number()),
    }
}

// An answer of eight numbers.
fn eight(x: [f64; 8], out: &mut [u32]) -> usize {
    if out.len() < 18 {
        return 0;
    }
    floats::write64(&mut out[2..], &x);
    word_numbers::two(out, 0, 1);
    18
}

fn median(args: &[u32], out: &mut [u32]) -> usize {
    let n = args.len();
    if 5000 < n {
        return 0;
    }
    let mut x: [f32; 5000] = room(0.0);
    median_of(args, &mut x[..n], out)
}

fn median_of(args: &[u32], x: &mut [f32], out: &mut [u32]) -> usize
    requires { length x.old ≤ 5000 }
{
    floats::read32(args, x);
    match medians::median(x) {
        Ok(y) => listed(y, x, out),
        Err(r) => word_numbers::one(out, r.number()),
    }
}

// An answer of one number and a list.
fn listed(y: f32, x: &[f32], out: &mut [u32]) -> usize
    requires { length x.now ≤ 5000 }
{
    if out.len() < x.len() + 2 {
        return 0;
    }
    floats::write32(&mut out[2..], x);
    word_numbers::two(out, 0, floats::bits32(y));
    x.len() + 2
}

fn mad_sigma(args: &[u32], out: &mut [u32]) -> usize {
    let n = args.len();
    if 5000 < n {
        return 0;
    }
    let mut x: [f32; 5000] = room(0.0);
    mad_sigma_of(args, &mut x[..n], out)
}

fn mad_sigma_of(args: &[u32], x: &mut [f32], out: &mut [u32]) -> usize {
    floats::read32(args, x);
    match medians::mad_sigma(x) {
        Ok(y) => word_numbers::two(out, 0, floats::bits32(y)),
        Err(r) => word_numbers::one(out, r.number()),
    }
}
