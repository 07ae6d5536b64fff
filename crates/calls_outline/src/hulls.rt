// Calls of hull and quad, and lent lists of numbers.
ghost use Rattle.std.specs.Prelude.{◌≡◌, ◌≤◌, length};

use hull::points::Quad;
use word_numbers::floats;

// Room for the longest list of numbers.
pub(crate) fn room() -> [f32; 2048]
    ensures { 2048 ≡ length result }
{
    [0f32; 2048]
}

// What place k of a lent list holds before the call.
fn lent_number(k: usize) -> f32 {
    let n = (k % 4096) as u16;
    n as f32 + 0.25
}

// Fills a list that is to be lent.
pub(crate) fn lend(list: &mut [f32])
    requires { length list.old ≤ 2048 }
{
    for (k, x) in list.iter_mut().enumerate() {
        *x = lent_number(k);
    }
}

// Some f32 numbers as words, from a place on.
fn put_floats(from: &[f32], out: &mut [u32], at: usize)
    requires { (length from.now ≤ 65536) × (at ≤ 65536) }
{
    for (k, x) in from.iter().enumerate() {
        word_bytes::put(out, at + k, floats::bits32(*x));
    }
}

// 0 and the numbers of a lent list.
pub(crate) fn listed(list: &[f32], out: &mut [u32]) -> usize
    requires { length list.now ≤ 2048 }
{
    let n = list.len() + 1;
    if out.len() < n {
        return 0;
    }
    word_bytes::put(out, 0, 0);
    put_floats(list, out, 1);
    n
}

// 0, a number and the numbers of a lent list.
pub(crate) fn told(n: usize, list: &[f32], out: &mut [u32]) -> usize
    requires { length list.now ≤ 2048 }
{
    let m = list.len() + 2;
    if out.len() < m {
        return 0;
    }
    word_bytes::put(out, 0, 0);
    word_bytes::put(out, 1, (n % 4294967296) as u32);
    put_floats(list, out, 2);
    m
}

// The hull into a lent list.
fn hull_lent(p: &[f32], list: &mut [f32], out: &mut [u32]) -> usize
    requires { length list.old ≤ 2048 }
{
    lend(list);
    match hull::convex_hull(p, list) {
        Ok(n) => told(n, list, out),
        Err(refusal) => word_numbers::one(out, refusal.number()),
    }
}

pub(crate) fn hull_call(args: &[u32], out: &mut [u32]) -> usize {
    if args.len() < 1 {
        return 0;
    }
    let m = word_numbers::many(args[0]);
    let n = args.len() - 1;
    if 2048 < m {
        return 0;
    }
    if 2048 < n {
        return 0;
    }
    let mut p = room();
    let mut list = room();
    floats::read32(&args[1..], &mut p);
    hull_lent(&p[..n], &mut list[..m], out)
}

// Ten words of a quad.
fn put_quad(q: Quad, out: &mut [u32]) -> usize {
    let a = q.a;
    let b = q.b;
    let c = q.c;
    let d = q.d;
    if out.len() < 10 {
        return 0;
    }
    let corners = [a.x, a.y, b.x, b.y, c.x, c.y, d.x, d.y];
    word_bytes::put(out, 0, 0);
    word_bytes::put(out, 1, 1);
    put_floats(&corners, out, 2);
    10
}

pub(crate) fn quad_call(args: &[u32], out: &mut [u32]) -> usize {
    let n = args.len();
    if 2048 < n {
        return 0;
    }
    let mut p = room();
    floats::read32(args, &mut p);
    match hull::quad(&p[..n]) {
        Some(q) => put_quad(q, out),
        None => word_numbers::two(out, 0, 0),
    }
}
