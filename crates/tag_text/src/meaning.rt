// What the numbers of refusals mean, in words for standard error.
// Kept: numbers, not `Refusal`: these functions promise their line of every number.
ghost use Rattle.std.specs.Prelude.{◌+◌, ◌≤◌, length};

use crate::lines::put_count;
use text::{put_byte, put_word};

// What the number of a refusal means.
fn put_meaning(out: &mut [u8], at: usize, n: u32) -> usize
    requires { at + 100 ≤ length out.old }
    ensures { result ≤ at + 100 }
{
    match n {
        14 => put_word(
            out,
            at,
            b"not a binary PGM file (P5), or its header is longer than 4,096 bytes",
        ),
        15 => put_word(out, at, b"the PGM file's maximum value is not 255"),
        1 => put_word(out, at, b"a side of the picture is outside 1 to 4,096"),
        13 => put_word(
            out,
            at,
            b"a side is over 2,048: the program takes no larger picture",
        ),
        2 => put_word(out, at, b"the file ends before the last pixel"),
        _ => put_word(out, at, b"the picture is not taken"),
    }
}

// A line for standard error: the program's name, the number of a refusal and what it means.
pub fn put_refusal(out: &mut [u8], n: u32) -> usize
    requires { 127 ≤ length out.old }
    ensures { result ≤ 127 }
{
    let a = put_word(out, 0, b"tags: refused");
    let b = put_count(out, a, n);
    let c = put_word(out, b, b": ");
    let d = put_meaning(out, c, n);
    put_byte(out, d, b'\n')
}
