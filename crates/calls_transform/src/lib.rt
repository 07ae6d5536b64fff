// Calls of transform's entries. An f64 is two words, an f32 one; a quad is eight f32, x and y by
// turns.
//     400 from_quad src, dst                    0, 1, eight f64; 0, 0 for none
//     401 apply of eleven f64, u, v             0, x, y
//     402 from_quad src, dst, with_radial cx, cy, kappa, apply u, v
//                                               0, 1, eleven f64, x, y; 0, 0 for none
#![tactic(auto)]

use transform::{Pixel, Transform};
use word_numbers::floats;

pub fn answer(kind: u32, args: &[u32], out: &mut [u32]) -> usize {
    match kind {
        400 if 16 <= args.len() => quad(args, out),
        401 if 24 <= args.len() => place(args, out),
        402 if 21 <= args.len() => both(args, out),
        _ => 0,
    }
}

// The f32 numbers of a quad.
fn eight(args: &[u32]) -> [f32; 8] {
    let mut q = [0f32; 8];
    floats::read32(args, &mut q);
    q
}

// The transform of the first sixteen words.
fn fitted(args: &[u32]) -> Option<Transform> {
    if args.len() < 16 {
        return None;
    }
    transform::from_quad(eight(&args[..8]), eight(&args[8..16]))
}

// The eleven numbers of a transform.
pub fn numbers(t: Transform) -> [f64; 11] {
    t.into()
}

fn quad(args: &[u32], out: &mut [u32]) -> usize {
    match fitted(args) {
        None => word_numbers::two(out, 0, 0),
        Some(t) => coefficients(numbers(t), out),
    }
}

// An answer of eight coefficients.
fn coefficients(x: [f64; 11], out: &mut [u32]) -> usize {
    if out.len() < 18 {
        return 0;
    }
    floats::write64(&mut out[2..18], &x);
    word_numbers::two(out, 0, 1);
    18
}

// The transform of the first 22 words.
pub fn map(args: &[u32]) -> Transform {
    Transform {
        m0: floats::at64(args, 0),
        m1: floats::at64(args, 1),
        m2: floats::at64(args, 2),
        m3: floats::at64(args, 3),
        m4: floats::at64(args, 4),
        m5: floats::at64(args, 5),
        m6: floats::at64(args, 6),
        m7: floats::at64(args, 7),
        cx: floats::at64(args, 8),
        cy: floats::at64(args, 9),
        kappa: floats::at64(args, 10),
    }
}

fn place(args: &[u32], out: &mut [u32]) -> usize {
    let t = map(args);
    let p = t.apply(floats::at32(args, 22), floats::at32(args, 23));
    word_numbers::three(out, 0, floats::bits32(p.x), floats::bits32(p.y))
}

fn both(args: &[u32], out: &mut [u32]) -> usize {
    match fitted(args) {
        None => word_numbers::two(out, 0, 0),
        Some(t) => bent(t, args, out),
    }
}

// A transform with a lens, and a place's pixel by it.
fn bent(t: Transform, args: &[u32], out: &mut [u32]) -> usize {
    let l = t.with_radial(
        floats::at32(args, 16),
        floats::at32(args, 17),
        floats::at32(args, 18),
    );
    let p = l.apply(floats::at32(args, 19), floats::at32(args, 20));
    whole(numbers(l), p, out)
}

// An answer of eleven numbers and a pixel.
fn whole(x: [f64; 11], p: Pixel, out: &mut [u32]) -> usize {
    if out.len() < 26 {
        return 0;
    }
    floats::write64(&mut out[2..], &x);
    floats::put32(out, 24, p.x);
    floats::put32(out, 25, p.y);
    word_numbers::two(out, 0, 1);
    26
}
