// The ring door for C. Refusals: 1, 2, 6, 3, 7, 8.
ghost use Rattle.std.specs.Prelude.{◌≡◌, length};
ghost use Rattle.laws.specs.Lent.{UntouchedPast};
ghost use Rattle.laws.specs.Said.{result_of};
ghost use Rattle.ring.specs.Door.{answer_of};
ghost use Rattle.ring.specs.Trace.{attempt_of};
ghost use Rattle.c_pictures.specs.Answers.{after_by};
ghost use Rattle.c_rings.specs.Rings.{score_rows, ring_of, found_numbers, is_found};

// One attempt at a ring from boundary points: its trace.
#[unsafe(no_mangle)]
pub extern "C" fn lcr_attempt(
    gray: &[u8],
    width: usize,
    height: usize,
    points: &[f32],
    most: u32,
    straight: &mut [f32],
    cand: &mut [f32],
    buf: &mut [f32],
    hull: &mut usize,
    found: &mut bool,
    quad: &mut [f32; 8],
    tried: &mut usize,
    scores: &mut [f32; 256],
    fix: &mut [f64; 15],
    fallback: &mut [f64; 15],
) -> u32
    ensures number { result ≡ result_of (answer_of gray.now width height
        points.now most (length straight.old)
        (length cand.old) (length buf.old)) }
    ensures straight { UntouchedPast (after_by result (length points.now) 0)
        straight.old straight.new }
    ensures cand { UntouchedPast (after_by result (length points.now) 0)
        cand.old cand.new }
    ensures buf { UntouchedPast (after_by result (length points.now) 0)
        buf.old buf.new }
    ensures hull { hull.new
        ≡ after_by result (attempt_of gray.now width height points.now most).hull
        hull.old }
    ensures found { found.new
        ≡ after_by result (is_found (attempt_of gray.now width height
        points.now most).quad) found.old }
    ensures quad { quad.new
        ≡ after_by result (found_numbers (attempt_of gray.now width height
        points.now most).quad) quad.old }
    ensures tried { tried.new
        ≡ after_by result (attempt_of gray.now width height points.now most
        ).scores.many tried.old }
    ensures scores { scores.new
        ≡ after_by result (score_rows (attempt_of gray.now width height
        points.now most).scores.list) scores.old }
    ensures fix { fix.new
        ≡ after_by result (ring_of (attempt_of gray.now width height
        points.now most).fix) fix.old }
    ensures fallback { fallback.new
        ≡ after_by result (ring_of (attempt_of gray.now width height
        points.now most).fallback) fallback.old }
{
    match ring::door::attempt(gray, width, height, points, most, straight, cand, buf) {
        Ok(t) => {
            c_rings::put_trace(t, hull, found, quad, tried, scores, fix, fallback);
            0
        }
        Err(r) => r.number(),
    }
}
