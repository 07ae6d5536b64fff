// Entries of the finder called by number, words in and words out, so that one program replays
// stored calls and one C function compares at scale. `kind` says which entry: each hundred is an
// area.
//
// A word is a u32: an f32 is its bits, an f64 its low and its high half, an i32 its bits, bytes
// stand four to a word, lowest first. The answer's first word is 0, or the refusal's number alone.
// The result is how many words of `out` were written; 0 where the call does not fit its kind.
#![tactic(auto)]

pub fn call(kind: u32, args: &[u32], out: &mut [u32]) -> usize {
    if kind < 200 {
        return calls_border::answer(kind, args, out);
    }
    if kind < 300 {
        return calls_ieee::answer(kind, args, out);
    }
    if kind < 400 {
        return calls_math::answer(kind, args, out);
    }
    if kind < 500 {
        return calls_transform::answer(kind, args, out);
    }
    if kind < 600 {
        return calls_picture::answer(kind, args, out);
    }
    if kind < 700 {
        return calls_outline::answer(kind, args, out);
    }
    if kind < 800 {
        return calls_marks::answer(kind, args, out);
    }
    if kind < 900 {
        return calls_fit::answer(kind, args, out);
    }
    if kind < 910 {
        return calls_ring::answer(kind, args, out);
    }
    if kind < 1000 {
        return calls_attempt::answer(kind, args, out);
    }
    0
}
