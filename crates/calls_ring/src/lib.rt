// Calls of the search over versions by number, words in and words out, as crate `calls` has them.
// A quad is the eight f32 of its corners, a lens its centre and its coefficient; bytes are those of
// a picture of w by h pixels, at most 1,048,576.
//     900 ring_transform quad, lens, side                  0, 1, eleven f64; 0, 0 for none
//     901 ring_lumas w, h, n, v, eleven f64, n bytes       0, lumas
//     902 the search w, h, n, most, quad, lens, span, n bytes
//                                                          0, how many scores, the scores
// A score is version, agreement, corner, mirrored. No words where there is no such picture or
// version, and with fewer than 26 words in 901 and 902.
#![tactic(auto)]

ghost use Rattle.std.specs.Prelude.{◌≤◌, length};
ghost use Rattle.search.specs.Samples.{Photo};

use lcr_core::version::Version;
use picture_checks::check_picture;
use search::versions::Goal;
use transform::Transform;
use word_numbers::floats;

pub mod given;
pub mod told;

pub fn answer(kind: u32, args: &[u32], out: &mut [u32]) -> usize {
    match kind {
        900 => mapped(args, out),
        901 => pictured(kind, args, 26, out),
        902 => pictured(kind, args, 16, out),
        _ => 0,
    }
}

fn mapped(args: &[u32], out: &mut [u32]) -> usize {
    if args.len() < 12 {
        return 0;
    }
    let side = (args[11] % 65536) as u16;
    let m = search::geometry::ring_transform(given::quad(args, 0), side, given::lens(args, 8));
    match m {
        None => word_numbers::two(out, 0, 0),
        Some(t) => told::map(t, out),
    }
}

// A call with a picture, whose bytes begin at `from`.
fn pictured(kind: u32, args: &[u32], from: usize, out: &mut [u32]) -> usize
    requires { from ≤ 26 }
{
    if args.len() < 26 {
        return 0;
    }
    let n = word_numbers::many(args[2]);
    if 1048576 < n {
        return 0;
    }
    let mut all = word_bytes::room();
    word_bytes::unpack(&args[from..], &mut all[..n]);
    sized(kind, args, &all[..n], out)
}

fn sized(kind: u32, args: &[u32], gray: &[u8], out: &mut [u32]) -> usize
    requires { 26 ≤ length args.now }
{
    let w = word_numbers::many(args[0]);
    let h = word_numbers::many(args[1]);
    let Ok(_) = check_picture(w, h, gray.len()) else {
        return 0;
    };
    read(kind, args, gray, w, h, out)
}

fn read(kind: u32, args: &[u32], gray: &[u8], w: usize, h: usize, out: &mut [u32]) -> usize
    requires photo { Photo gray.now w h }
    requires in_bounds { 26 ≤ length args.now }
{
    let v = args[3];
    if kind == 901 {
        return lumas(gray, w, h, calls_transform::map(&args[4..]), v, out);
    }
    if (Version::MAX as u32) < v {
        return 0;
    }
    let g = Goal {
        quad: given::quad(args, 4),
        lens: given::lens(args, 12),
        most: v as u8,
        span: floats::at32(args, 15),
    };
    scored(gray, w, h, g, out)
}

fn lumas(gray: &[u8], w: usize, h: usize, t: Transform, v: u32, out: &mut [u32]) -> usize
    requires { Photo gray.now w h }
{
    let Ok(version) = Version::new(v) else {
        return 0;
    };
    let mut list = [0.0f32; 1112];
    let n = version.positions();
    search::lumas::ring_lumas(gray, w, h, t, version, &mut list[..n]);
    told::numbers(&list[..n], out)
}

fn scored(gray: &[u8], w: usize, h: usize, g: Goal, out: &mut [u32]) -> usize
    requires photo { Photo gray.now w h }
    requires most_bound { g.most ≤ 64 }
{
    let s = search::versions::run(gray, w, h, g);
    let list = s.scores;
    told::scored(list, out)
}
