// Calls of the outline door, hull, quad and listing by number, words in and words out, as crate
// `calls` has them.
//     600 outline want, w, h, x0, y0, x1, y1, n bytes, g levels, l labels, m numbers, then these
//                          0, how many points, the m numbers of the lent list; 1, 2, 3, 5
//     601 the same         0, the m numbers of the lent list, refused or not
//     602 hull m, numbers  0, how many vertices, the m numbers of the lent list; 3
//     603 quad numbers     0, 1, eight numbers; 0, 0 for none
//     604 listing n, bytes 0, how many bytes, these four to a word
// At most 25,600 bytes of a picture and 25,640 of a record, 128 levels, 512 labels, 2,048 numbers.
// Before the call place k of a lent list holds k + 0.25.
#![tactic(auto)]

ghost use Rattle.std.specs.Prelude.{◌≡◌, ◌≤◌, length};

use refusal::Refusal;

pub mod hulls;
pub mod listings;

// Room for the largest picture.
fn picture_room() -> [u8; 25600]
    ensures { 25600 ≡ length result }
{
    [0; 25600]
}

// Room for the most thresholds.
fn level_room() -> [u8; 128]
    ensures { 128 ≡ length result }
{
    [0; 128]
}

pub fn answer(kind: u32, args: &[u32], out: &mut [u32]) -> usize {
    match kind {
        600 | 601 => outline_call(kind, args, out),
        602 => hulls::hull_call(args, out),
        603 => hulls::quad_call(args, out),
        604 => listings::listing_call(args, out),
        _ => 0,
    }
}

// The answer of the outline door as words.
fn outlined(kind: u32, a: Result<usize, Refusal>, list: &[f32], out: &mut [u32]) -> usize
    requires { length list.now ≤ 2048 }
{
    if kind == 601 {
        return hulls::listed(list, out);
    }
    match a {
        Ok(n) => hulls::told(n, list, out),
        Err(refusal) => word_numbers::one(out, refusal.number()),
    }
}

// The outline door on lent lists.
fn lent(
    kind: u32,
    head: &[u32],
    s: &[u8],
    levels: &[u8],
    labels: &[u32],
    list: &mut [f32],
    out: &mut [u32],
) -> usize
    requires in_bounds { 11 ≤ length head.now }
    requires list_len_bound { length list.old ≤ 2048 }
{
    hulls::lend(list);
    let w = word_numbers::many(head[1]);
    let h = word_numbers::many(head[2]);
    let x0 = word_numbers::many(head[3]);
    let y0 = word_numbers::many(head[4]);
    let x1 = word_numbers::many(head[5]);
    let y1 = word_numbers::many(head[6]);
    let a = outline::outline(s, levels, labels, head[0], w, h, x0, y0, x1, y1, list);
    outlined(kind, a, list, out)
}

// The outline door with lists as long as said: n bytes from place 11 on, g levels from a on, labels
// from b to e, m numbers.
fn made(
    kind: u32,
    args: &[u32],
    n: usize,
    g: usize,
    a: usize,
    b: usize,
    e: usize,
    m: usize,
    out: &mut [u32],
) -> usize
    requires n_bound { (n ≤ 25600) × (g ≤ 128) × (m ≤ 2048) }
    requires le_a { (11 ≤ a) × (a ≤ b) × (b ≤ e) × (e ≤ length args.now) }
{
    let mut s = picture_room();
    let mut levels = level_room();
    let mut list = hulls::room();
    word_bytes::unpack(&args[11..], &mut s);
    word_bytes::unpack(&args[a..], &mut levels);
    lent(
        kind,
        &args[..11],
        &s[..n],
        &levels[..g],
        &args[b..e],
        &mut list[..m],
        out,
    )
}

fn outline_call(kind: u32, args: &[u32], out: &mut [u32]) -> usize {
    if args.len() < 11 {
        return 0;
    }
    let n = word_numbers::many(args[7]);
    let g = word_numbers::many(args[8]);
    let l = word_numbers::many(args[9]);
    let m = word_numbers::many(args[10]);
    if 25600 < n {
        return 0;
    }
    if 128 < g {
        return 0;
    }
    if 512 < l {
        return 0;
    }
    if 2048 < m {
        return 0;
    }
    let a = 11 + word_bytes::words_of(n);
    let b = a + word_bytes::words_of(g);
    let e = b + l;
    if args.len() < e {
        return 0;
    }
    made(kind, args, n, g, a, b, e, m, out)
}
