// Lists of calls: what lent lists hold before a call, and their places put into an answer.
ghost use Rattle.std.specs.Prelude.{◌≤◌, length};

use word_bytes::put;

// What a place of a lent list holds before the call.
fn lent_word(k: usize) -> u32 {
    let n = ((k % 4294967296) * 2654435761) % 4294967296;
    (n - n % 2 + 1) as u32
}

pub(crate) fn lend_bytes(list: &mut [u8]) {
    for (k, byte) in list.iter_mut().enumerate() {
        *byte = ((k % 256 * 7 + 3) % 256) as u8;
    }
}

pub(crate) fn lend_words(list: &mut [u32]) {
    for (k, word) in list.iter_mut().enumerate() {
        *word = lent_word(k);
    }
}

// The words of a list, the first `past` of them as 0, from a place on.
pub(crate) fn put_words(list: &[u32], past: usize, out: &mut [u32], at: usize)
    requires { (length list.now ≤ 512) × (at ≤ 2048) }
{
    for (k, word) in list.iter().enumerate() {
        put(out, at + k, if k < past { 0 } else { *word });
    }
}
