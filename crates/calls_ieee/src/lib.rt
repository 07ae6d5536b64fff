// Calls of ieee's functions; x and y are f32 words, w an f64 of two words.
//     200 root x      0, bits        203 abs64 w       0, low, high    206 before32 x, y  0, flag
//     201 narrowed w  0, bits        204 max32 x, y    0, bits         207 to_u32 x       0, value
//     202 abs32 x     0, bits        205 is_finite x   0, flag         208 to_u8 x        0, value
#![tactic(auto)]

use word_numbers::floats;

pub fn answer(kind: u32, args: &[u32], out: &mut [u32]) -> usize {
    if args.len() < 2 {
        return 0;
    }
    let w = floats::at64(args, 0);
    if kind == 203 {
        let b = floats::bits64(ieee::abs64(w));
        return word_numbers::three(out, 0, (b % 4294967296) as u32, (b / 4294967296) as u32);
    }
    let x = floats::at32(args, 0);
    let y = floats::at32(args, 1);
    let value = match kind {
        200 => floats::bits32(ieee::root(x)),
        201 => floats::bits32(ieee::narrowed(w)),
        202 => floats::bits32(ieee::abs32(x)),
        204 => floats::bits32(ieee::max32(x, y)),
        205 => word_numbers::flag(ieee::is_finite(x)),
        206 => word_numbers::flag(ieee::before32(x, y)),
        207 => ieee::to_u32(x),
        208 => ieee::to_u8(x) as u32,
        _ => return 0,
    };
    word_numbers::two(out, 0, value)
}
