// Samples of one ring position: five points of a cell, and the sum of what lies in the picture.
ghost use Rattle.std.specs.Prelude.{◌≡◌, ◌≤◌, false};
ghost use Rattle.search.specs.Samples.{outside, byte_at, add_sample, sample_point, sample_cell};
ghost use Rattle.search.specs.Samples.{Photo, NearCell, mean_luma};

use lcr_core::border::Cell;
use transform::{Pixel, Transform};

// Bytes summed so far, and how many they are.
#[derive(Drop)]
pub struct Sum {
    pub sum: f32,
    pub n: f32,
}

// Whether a place lies outside the picture, as one with a NaN coordinate does.
fn is_outside(w: usize, h: usize, p: Pixel) -> bool
    requires { (w ≤ 4096) × (h ≤ 4096) }
    ensures { result ≡ outside w h p }
{
    let low = 0.0 <= p.x;
    let high = 0.0 <= p.y;
    let left = p.x < w as f32;
    let above = p.y < h as f32;
    !(low & left & (high & above))
}

// The byte at a place in the picture, each coordinate cut toward zero.
fn byte_at(gray: &[u8], w: usize, h: usize, p: Pixel) -> u8
    requires photo { Photo gray.now w h }
    requires p_value { outside w h p ≡ false }
    ensures { result ≡ byte_at gray.now w p }
{
    let x = std::num::truncating_f32_to_u64(p.x) as usize;
    let y = std::num::truncating_f32_to_u64(p.y) as usize;
    gray[y * w + x]
}

// A sum with the byte at a place, where that is in the picture.
fn add_sample(gray: &[u8], w: usize, h: usize, s: Sum, p: Pixel) -> Sum
    requires { Photo gray.now w h }
    ensures { result ≡ add_sample gray.now w h s p }
{
    if is_outside(w, h, p) {
        return s;
    }
    let b = byte_at(gray, w, h, p);
    Sum {
        sum: s.sum + b as f32,
        n: s.n + 1.0,
    }
}

// A sum with the sample at (x + du, y + dv) of a cell.
fn sample_point(
    gray: &[u8],
    w: usize,
    h: usize,
    t: Transform,
    cell: Cell,
    du: f32,
    dv: f32,
    s: Sum,
) -> Sum
    requires photo { Photo gray.now w h }
    requires near_cell { NearCell cell }
    ensures { result ≡ sample_point gray.now w h t cell du dv s }
{
    let x = cell.x;
    let y = cell.y;
    let p = t.apply(x as f32 + du, y as f32 + dv);
    add_sample(gray, w, h, s, p)
}

// A sum with the five samples of a cell.
pub(crate) fn sample_cell(gray: &[u8], w: usize, h: usize, t: Transform, cell: Cell, s: Sum) -> Sum
    requires photo { Photo gray.now w h }
    requires near_cell { NearCell cell }
    ensures { result ≡ sample_cell gray.now w h t cell s }
{
    let a = sample_point(gray, w, h, t, cell, 0.5, 0.5, s);
    let b = sample_point(gray, w, h, t, cell, 0.3, 0.5, a);
    let c = sample_point(gray, w, h, t, cell, 0.7, 0.5, b);
    let d = sample_point(gray, w, h, t, cell, 0.5, 0.3, c);
    sample_point(gray, w, h, t, cell, 0.5, 0.7, d)
}

// The mean of what was summed; a NaN where there was nothing.
pub(crate) fn mean_of(s: Sum) -> f32
    ensures { result ≡ mean_luma s }
{
    if 0.0 < s.n {
        return s.sum / s.n;
    }
    0.0 / 0.0
}
