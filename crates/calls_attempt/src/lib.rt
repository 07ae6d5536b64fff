// Calls of the ring door by number, words in and words out, as crate `calls` has them: w, h,
// greatest version, n bytes, m numbers, working lists of a, b and c places; then the bytes, four to
// a word, and the numbers.
//     910 the trace      0, hull, quad, fix, fallback, scores; or the refusal
//     911 what is left   0, the refusal or 0, the places of each list past those needed: from m on
//                        in an accepted call, from 0 on in a refused one
// At most 1,048,576 bytes and 32,770 places of each list. Before the call place k of a working list
// holds k modulo 1,000.
#![tactic(auto)]

ghost use Rattle.std.specs.Prelude.{◌+◌, ◌≤◌, length};

use word_numbers::floats;

pub mod traces;

// What place k of a lent list holds before the call.
fn lent(k: usize) -> f32 {
    (k % 1000) as u16 as f32
}

fn lend(list: &mut [f32]) {
    for (k, x) in list.iter_mut().enumerate() {
        *x = lent(k);
    }
}

pub fn answer(kind: u32, args: &[u32], out: &mut [u32]) -> usize {
    if args.len() < 8 {
        return 0;
    }
    let n = word_numbers::many(args[3]);
    if 1048576 < n {
        return 0;
    }
    if 32770 < word_numbers::many(args[4]) {
        return 0;
    }
    let mut all = word_bytes::room();
    word_bytes::unpack(&args[8..], &mut all[..n]);
    of_bytes(kind, args, &all[..n], out)
}

// The numbers of a call whose bytes are n.
fn read(args: &[u32], n: usize, list: &mut [f32])
    requires { n ≤ 1048576 }
{
    let from = 8 + (n + 3) / 4;
    if args.len() < from {
        return;
    }
    floats::read32(&args[from..], list);
}

fn of_bytes(kind: u32, args: &[u32], gray: &[u8], out: &mut [u32]) -> usize
    requires gray_len_bound { length gray.now ≤ 1048576 }
    requires in_bounds { 8 ≤ length args.now }
{
    let m = word_numbers::many(args[4]);
    if 32770 < m {
        return 0;
    }
    let mut points = word_bytes::list_room();
    read(args, gray.len(), &mut points[..m]);
    of_points(kind, args, gray, &points[..m], out)
}

fn of_points(kind: u32, args: &[u32], gray: &[u8], points: &[f32], out: &mut [u32]) -> usize
    requires { 8 ≤ length args.now }
{
    let a = word_numbers::many(args[5]);
    let b = word_numbers::many(args[6]);
    let c = word_numbers::many(args[7]);
    if 32770 < a {
        return 0;
    }
    if 32770 < b {
        return 0;
    }
    if 32770 < c {
        return 0;
    }
    let mut x = word_bytes::list_room();
    let mut y = word_bytes::list_room();
    let mut z = word_bytes::list_room();
    made(
        kind,
        args,
        gray,
        points,
        &mut x[..a],
        &mut y[..b],
        &mut z[..c],
        out,
    )
}

fn made(
    kind: u32,
    args: &[u32],
    gray: &[u8],
    points: &[f32],
    x: &mut [f32],
    y: &mut [f32],
    z: &mut [f32],
    out: &mut [u32],
) -> usize
    requires { 8 ≤ length args.now }
{
    let w = word_numbers::many(args[0]);
    let h = word_numbers::many(args[1]);
    let most = args[2];
    lend(x);
    lend(y);
    lend(z);
    let r = ring::door::attempt(gray, w, h, points, most, x, y, z);
    if kind == 910 {
        return crate::traces::answered(r, out);
    }
    match r {
        Ok(_) => left(0, points.len(), x, y, z, out),
        Err(e) => left(e.number(), 0, x, y, z, out),
    }
}

// The places of a list from `past` on, from place `at` of an answer on; the place after them.
fn put_past(list: &[f32], past: usize, out: &mut [u32], at: usize) -> usize
    requires { (length list.now ≤ 32770) × (at ≤ 100000) }
    ensures { result ≤ at + 32770 }
{
    let mut to = at;
    for k in past..list.len() {
        floats::put32(out, to, list[k]);
        to += 1;
    }
    to
}

// What is left, from place `past` of each list on.
fn left(refused: u32, past: usize, x: &[f32], y: &[f32], z: &[f32], out: &mut [u32]) -> usize {
    if 32770 < x.len() {
        return 0;
    }
    if 32770 < y.len() {
        return 0;
    }
    if 32770 < z.len() {
        return 0;
    }
    word_bytes::put(out, 0, 0);
    word_bytes::put(out, 1, refused);
    let a = put_past(x, past, out, 2);
    let b = put_past(y, past, out, a);
    let end = put_past(z, past, out, b);
    if out.len() < end {
        return 0;
    }
    end
}
