// Calls of the picture door by number, words in and words out, as crate `calls` has them: w, h, n
// bytes, lent lists of g, l and k places, then the bytes.
//     500 the answer     1 to 3; or 0, all, kept, of four regions label, cells, x0, y0, x1, y1
//     501 what is left   0, the refusal, the g bytes of the grid, the l labels, the k places of the
//                        stack, those that an accepted call needs as 0
// At most 25,600 bytes, 128 places of the grid, 512 of either list. Before the call place k of the
// grid holds 7k + 3 modulo 256, and that of a list k times 0x9e3779b1 modulo 2^32, made odd.
#![tactic(auto)]

ghost use Rattle.std.specs.Prelude.{◌≡◌, ◌≤◌, length};

use crate::lists::{lend_bytes, lend_words, put_words};
use refusal::Refusal;
use regions::answer::{Kept, Region};
use word_bytes::{put, put_bytes, unpack};
use word_numbers::many;

pub mod lists;

// Room for the greatest picture.
fn room() -> [u8; 25600]
    ensures { 25600 ≡ length result }
{
    [0; 25600]
}

// Room for the longest grid, and for the longest list of cells.
fn grid_room() -> [u8; 128]
    ensures { 128 ≡ length result }
{
    [0; 128]
}

fn list_room() -> [u32; 512]
    ensures { 512 ≡ length result }
{
    [0; 512]
}

// The six numbers of a region, from a place on.
fn put_region(r: Region, out: &mut [u32], at: usize)
    requires { at ≤ 21 }
{
    put(out, at, r.label);
    put(out, at + 1, r.cells);
    put(out, at + 2, r.x0);
    put(out, at + 3, r.y0);
    put(out, at + 4, r.x1);
    put(out, at + 5, r.y1);
}

// The 26 numbers of the regions, all, kept, four regions, from a place on.
fn put_regions(k: Kept, out: &mut [u32], at: usize)
    requires { at ≤ 1 }
{
    put(out, at, (k.all % 4294967296) as u32);
    put(out, at + 1, (k.kept % 4294967296) as u32);
    let list = k.list;
    put_region(list[0], out, at + 2);
    put_region(list[1], out, at + 8);
    put_region(list[2], out, at + 14);
    put_region(list[3], out, at + 20);
}

// The answer.
fn told(answer: Result<Kept, Refusal>, out: &mut [u32]) -> usize {
    if out.len() < 27 {
        return 0;
    }
    match answer {
        Ok(k) => {
            put(out, 0, 0);
            put_regions(k, out, 1);
            27
        }
        Err(r) => {
            put(out, 0, r.number());
            1
        }
    }
}

// How many places of the stack an accepted call needs.
fn needed(w: usize, h: usize) -> usize {
    ((h % 8192 + 7) / 8) * ((w % 8192 + 7) / 8)
}

// The refusal's number and the three lists.
fn left(
    refused: u32,
    past: usize,
    grid: &[u8],
    labels: &[u32],
    stack: &[u32],
    out: &mut [u32],
) -> usize
    requires { (length grid.now ≤ 128)
        × (length labels.now ≤ 512)
        × (length stack.now ≤ 512) }
{
    let n = (grid.len() + 3) / 4;
    let a = 2 + n;
    let b = a + labels.len();
    let e = b + stack.len();
    if out.len() < e {
        return 0;
    }
    put(out, 0, 0);
    put(out, 1, refused);
    put_bytes(grid, out, 2, n);
    put_words(labels, 0, out, a);
    put_words(stack, past, out, b);
    e
}

// Calls the door with these lists.
fn run(
    kind: u32,
    s: &[u8],
    w: usize,
    h: usize,
    grid: &mut [u8],
    labels: &mut [u32],
    stack: &mut [u32],
    out: &mut [u32],
) -> usize
    requires { (length grid.old ≤ 128)
        × (length labels.old ≤ 512)
        × (length stack.old ≤ 512) }
{
    lend_bytes(grid);
    lend_words(labels);
    lend_words(stack);
    let a = picture::picture(s, w, h, grid, labels, stack);
    if kind == 500 {
        return told(a, out);
    }
    match a {
        Ok(_) => left(0, needed(w, h), grid, labels, stack, out),
        Err(r) => left(r.number(), 0, grid, labels, stack, out),
    }
}

// Calls the door with lists of g, l and k places.
fn made(
    kind: u32,
    s: &[u8],
    w: usize,
    h: usize,
    g: usize,
    l: usize,
    k: usize,
    out: &mut [u32],
) -> usize
    requires { (g ≤ 128) × (l ≤ 512) × (k ≤ 512) }
{
    let mut grid = grid_room();
    let mut labels = list_room();
    let mut stack = list_room();
    run(
        kind,
        s,
        w,
        h,
        &mut grid[..g],
        &mut labels[..l],
        &mut stack[..k],
        out,
    )
}

pub fn answer(kind: u32, args: &[u32], out: &mut [u32]) -> usize {
    if args.len() < 6 {
        return 0;
    }
    let n = many(args[2]);
    let g = many(args[3]);
    let l = many(args[4]);
    let k = many(args[5]);
    if 25600 < n {
        return 0;
    }
    if 128 < g {
        return 0;
    }
    if 512 < l {
        return 0;
    }
    if 512 < k {
        return 0;
    }
    let mut s = room();
    unpack(&args[6..], &mut s);
    made(kind, &s[..n], many(args[0]), many(args[1]), g, l, k, out)
}
