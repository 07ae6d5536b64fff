// Calls of lcr_core's entries.
//     100 version v            0, side, positions        104 outer_cell v, p     0, x, y
//     101 shell v, x, y        0, depth                  105 inner_cell v, p     0, x, y
//     102 edge_and_offset      0, edge, offset           106 sequence_light v, p 0, mark
//     103 position v, x, y     0, 1, position or 0, 0    107 is_two_deep p       0, flag
//     108 the 32 marks of v from p on, lowest bit first  0, marks
// A position is two words, low half first.
#![tactic(auto)]

ghost use Rattle.std.specs.Prelude.{◌≤◌, ◌<◌};

use lcr_core::border::Cell;
use lcr_core::doors;
use lcr_core::version::Version;
use refusal::Refusal;

pub fn answer(kind: u32, args: &[u32], out: &mut [u32]) -> usize {
    if args.len() < 3 {
        return 0;
    }
    let v = args[0];
    if kind == 100 {
        return version(v, out);
    }
    if kind < 104 {
        return of_cell(
            kind,
            v,
            word_numbers::signed(args[1]),
            word_numbers::signed(args[2]),
            out,
        );
    }
    let p = word_numbers::wide(args[1], args[2]) as usize;
    of_position(kind, v, p, out)
}

fn version(v: u32, out: &mut [u32]) -> usize {
    match Version::new(v) {
        Ok(w) => word_numbers::three(out, 0, w.side() as u32, (w.positions() % 65536) as u32),
        Err(r) => word_numbers::one(out, r.number()),
    }
}

fn of_cell(kind: u32, v: u32, x: i32, y: i32, out: &mut [u32]) -> usize {
    if kind == 101 {
        return shell(v, x, y, out);
    }
    if kind == 102 {
        return edge(v, x, y, out);
    }
    position(v, x, y, out)
}

fn shell(v: u32, x: i32, y: i32, out: &mut [u32]) -> usize {
    match doors::shell(v, x, y) {
        Ok(d) => word_numbers::two(out, 0, (d % 4294967296) as u32),
        Err(r) => word_numbers::one(out, r.number()),
    }
}

fn edge(v: u32, x: i32, y: i32, out: &mut [u32]) -> usize {
    match doors::edge_and_offset(v, x, y) {
        Ok(e) => word_numbers::three(out, 0, (e.edge % 4) as u32, word_numbers::bits(e.offset)),
        Err(r) => word_numbers::one(out, r.number()),
    }
}

fn position(v: u32, x: i32, y: i32, out: &mut [u32]) -> usize {
    match doors::position(v, x, y) {
        Ok(Some(p)) => word_numbers::three(out, 0, 1, (p % 4294967296) as u32),
        Ok(None) => word_numbers::two(out, 0, 0),
        Err(r) => word_numbers::one(out, r.number()),
    }
}

fn of_position(kind: u32, v: u32, p: usize, out: &mut [u32]) -> usize {
    if kind == 104 {
        return found(doors::outer_cell(v, p), out);
    }
    if kind == 105 {
        return found(doors::inner_cell(v, p), out);
    }
    if kind == 106 {
        return mark(v, p, out);
    }
    if kind == 107 {
        return word_numbers::two(out, 0, word_numbers::flag(lcr_core::border::is_two_deep(p)));
    }
    if kind == 108 {
        return marks(v, p % 65536, out);
    }
    0
}

fn found(answer: Result<Cell, Refusal>, out: &mut [u32]) -> usize {
    match answer {
        Ok(cell) => word_numbers::three(
            out,
            0,
            word_numbers::bits(cell.x),
            word_numbers::bits(cell.y),
        ),
        Err(r) => word_numbers::one(out, r.number()),
    }
}

fn mark(v: u32, p: usize, out: &mut [u32]) -> usize {
    match doors::sequence_light(v, p) {
        Ok(light) => word_numbers::two(out, 0, word_numbers::flag(light)),
        Err(r) => word_numbers::one(out, r.number()),
    }
}

// The mark at a position as a bit, 0 where the version is refused.
fn mark_bit(v: u32, p: usize) -> u32
    ensures { result ≤ 1 }
{
    match doors::sequence_light(v, p) {
        Ok(light) => word_numbers::flag(light),
        Err(_) => 0,
    }
}

fn marks(v: u32, p: usize, out: &mut [u32]) -> usize
    requires { p < 65536 }
{
    let mut word: u32 = 0;
    for k in (0..32).rev() {
        word = (word % 2147483648) * 2 + mark_bit(v, p + k);
    }
    word_numbers::two(out, 0, word)
}
