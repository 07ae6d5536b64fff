// The lines of a trace. Each function has room for the longest numbers of their types, not only for
// those that a trace has.
ghost use Rattle.std.specs.Prelude.{◌≡◌, [], ◌∷◌, ◌++◌, ◌+◌, ◌*◌, ◌≤◌, Some, Ok, length};
ghost use Rattle.refusal.specs.Numbers.{number_of, said};
ghost use Rattle.refusal.specs.declared.Refusal.{Refusal};
ghost use Rattle.ring.specs.declared.quads.Trace.{Trace};
ghost use Rattle.transform.specs.Mapping.{eleven_of};
ghost use Rattle.laws.specs.Lent.{Stored};
ghost use Rattle.text.specs.Text.{line_of, refused_word};
ghost use Rattle.attempt_text.specs.Traced.{each, double, end, quad_text, score_line, score_lines, scores_text, fix_text, ring_text, trace_text, answer_text};

use crate::pieces::{flag, put_count, put_doubles, put_single, put_singles, put_small};
use accept::Fix;
use hull::points::Quad;
use refusal::Refusal;
use ring::quads::Trace;
use search::versions::{Score, Scores};
use text::{put_byte, put_word};
use transform::Transform;

// A line of a word alone.
fn line(out: &mut [u8], at: usize, word: &[u8]) -> usize
    requires { at + (length word.now + 1) ≤ length out.old }
    ensures out { Stored at (word.now ++ end) out.old out.new result }
    ensures answer { result ≡ at + (length word.now + 1) }
{
    let a = put_word(out, at, word);
    put_byte(out, a, b'\n')
}

// A line of a word and a number.
fn counted(out: &mut [u8], at: usize, word: &[u8], n: usize) -> usize
    requires { at + (length word.now + 22) ≤ length out.old }
    ensures out { Stored at (line_of word.now (n ∷ [])) out.old out.new result }
    ensures most { result ≤ at + (length word.now + 22) }
{
    let a = put_word(out, at, word);
    let b = put_count(out, a, n);
    put_byte(out, b, b'\n')
}

// The line of a quad's corners.
fn put_quad(out: &mut [u8], at: usize, q: Quad) -> usize
    requires { at + 77 ≤ length out.old }
    ensures out { Stored at (quad_text (Some q)) out.old out.new result }
    ensures most { result ≤ at + 77 }
{
    let xs = [q.a.x, q.a.y, q.b.x, q.b.y, q.c.x, q.c.y, q.d.x, q.d.y];
    let a = put_word(out, at, b"quad");
    let b = put_singles(out, a, &xs);
    put_byte(out, b, b'\n')
}

// The line of a quad or none.
fn put_corners(out: &mut [u8], at: usize, c: Option<Quad>) -> usize
    requires { at + 77 ≤ length out.old }
    ensures out { Stored at (quad_text c) out.old out.new result }
    ensures most { result ≤ at + 77 }
{
    let Some(q) = c else {
        return line(out, at, b"quad none");
    };
    put_quad(out, at, q)
}

// The line of a score.
fn put_score(out: &mut [u8], at: usize, s: Score) -> usize
    requires { at + 44 ≤ length out.old }
    ensures out { Stored at (score_line s) out.old out.new result }
    ensures most { result ≤ at + 44 }
{
    let w = put_word(out, at, b"score");
    let a = put_small(out, w, s.version);
    let b = put_single(out, a, s.agreement);
    let c = put_count(out, b, s.corner);
    let d = put_small(out, c, flag(s.mirrored));
    put_byte(out, d, b'\n')
}

// The lines of the first n scores.
fn put_list(out: &mut [u8], at: usize, list: [Score; 64], n: usize) -> usize
    requires { (n ≤ 64) × (at + 44 * n ≤ length out.old) }
    ensures out { Stored at (score_lines list n) out.old out.new result }
    ensures most { result ≤ at + 44 * n }
{
    let mut to = at;
    for k in 0..n {
        to = put_score(out, to, list[k]);
    }
    to
}

// How many scores there are, and their lines.
fn put_scores(out: &mut [u8], at: usize, s: Scores) -> usize
    requires { (s.many ≤ 64) × (at + 2844 ≤ length out.old) }
    ensures out { Stored at (scores_text s) out.old out.new result }
    ensures most { result ≤ at + 2844 }
{
    let a = counted(out, at, b"scores", s.many);
    let list = s.list;
    put_list(out, a, list, s.many)
}

// The eleven numbers of a transform.
fn put_map(out: &mut [u8], at: usize, t: Transform) -> usize
    requires { at + 187 ≤ length out.old }
    ensures out { Stored at (each double (eleven_of t)) out.old out.new result }
    ensures most { result ≤ at + 187 }
{
    let xs = <[f64; 11]>::from(t);
    put_doubles(out, at, &xs)
}

// What stands of a ring after its word.
fn put_ring(out: &mut [u8], at: usize, f: Fix) -> usize
    requires { at + 201 ≤ length out.old }
    ensures out { Stored at (ring_text f) out.old out.new result }
    ensures most { result ≤ at + 201 }
{
    let map = f.map;
    let a = put_small(out, at, f.version);
    let b = put_single(out, a, f.agreement);
    let c = put_map(out, b, map);
    put_byte(out, c, b'\n')
}

// The line of a ring or none, after its word.
fn put_fixed(out: &mut [u8], at: usize, word: &[u8], f: Option<Fix>) -> usize
    requires { at + (length word.now + 201) ≤ length out.old }
    ensures out { Stored at (fix_text word.now f) out.old out.new result }
    ensures most { result ≤ at + (length word.now + 201) }
{
    let w = put_word(out, at, word);
    let Some(x) = f else {
        return line(out, w, b" none");
    };
    put_ring(out, w, x)
}

// The lines of a trace.
fn traced(t: Trace, out: &mut [u8]) -> usize
    requires { (t.scores.many ≤ 64) × (3360 ≤ length out.old) }
    ensures out { Stored 0 (trace_text t) out.old out.new result }
    ensures most { result ≤ 3360 }
{
    let quad = t.quad;
    let scores = t.scores;
    let fix = t.fix;
    let fallback = t.fallback;
    let a = counted(out, 0, b"hull", t.hull);
    let b = put_corners(out, a, quad);
    let c = put_scores(out, b, scores);
    let d = put_fixed(out, c, b"fix", fix);
    put_fixed(out, d, b"fallback", fallback)
}

// The line of a refusal.
pub(crate) fn refused(r: Refusal, out: &mut [u8]) -> usize
    requires { 3360 ≤ length out.old }
    ensures out { Stored 0 (line_of refused_word (number_of r ∷ [])) out.old out.new result }
    ensures most { result ≤ 3360 }
{
    counted(out, 0, b"refused", r.number() as usize)
}

// The text of the door's answer.
pub(crate) fn answered(r: Result<Trace, Refusal>, out: &mut [u8]) -> usize
    requires many_bound { (t : Trace) → r ≡ Ok t → t.scores.many ≤ 64 }
    requires in_bounds { 3360 ≤ length out.old }
    ensures out { Stored 0 (answer_text (said r)) out.old out.new result }
    ensures most { result ≤ 3360 }
{
    match r {
        Ok(t) => traced(t, out),
        Err(e) => refused(e, out),
    }
}
