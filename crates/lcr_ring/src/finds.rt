// The finder and the tag list for C. Refusals of both: 1, 2, 3, 8.
ghost use Rattle.std.specs.Prelude.{◌≡◌, length};
ghost use Rattle.laws.specs.Lent.{UntouchedPast};
ghost use Rattle.laws.specs.Plane.{plane};
ghost use Rattle.laws.specs.Said.{result_of};
ghost use Rattle.labels.specs.Cells.{groups_of};
ghost use Rattle.picture.specs.Door.{levels_after, labels_after, StackAfter};
ghost use Rattle.finder.specs.Find.{check_find, trace_of, answer_by};
ghost use Rattle.tag_list.specs.Tags.{tags_of, padded, tags_by};
ghost use Rattle.c_pictures.specs.Answers.{after_by};
ghost use Rattle.c_rings.specs.Rings.{score_rows, ring_of, found_numbers, is_found};
ghost use Rattle.c_rings.specs.Tags.{list_numbers};
ghost use Rattle.region_outline.specs.Region.{need_of};

// The trace of a picture: how many regions it has, and what the finder looked at and found.
#[unsafe(no_mangle)]
pub extern "C" fn lcr_find(
    gray: &[u8],
    width: usize,
    height: usize,
    most: u32,
    levels: &mut [u8],
    labels: &mut [u32],
    stack: &mut [u32],
    points: &mut [f32],
    straight: &mut [f32],
    cand: &mut [f32],
    buf: &mut [f32],
    regions: &mut usize,
    hull: &mut usize,
    found: &mut bool,
    quad: &mut [f32; 8],
    tried: &mut usize,
    scores: &mut [f32; 256],
    fix: &mut [f64; 15],
    fallback: &mut [f64; 15],
) -> u32
    ensures number { result ≡ result_of (answer_by (check_find width height (length gray.now)
        (length levels.old) (length labels.old)
        (length stack.old) (length points.old)
        (length straight.old) (length cand.old)
        (length buf.old) most) gray.now width height most) }
    ensures levels { levels.new
        ≡ levels_after result gray.now width height levels.old }
    ensures labels { labels.new
        ≡ labels_after result gray.now width height labels.old }
    ensures stack { StackAfter result width height stack.old stack.new }
    ensures points { UntouchedPast (after_by result (need_of width height) 0)
        points.old points.new }
    ensures straight { UntouchedPast (after_by result (need_of width height) 0)
        straight.old straight.new }
    ensures cand { UntouchedPast (after_by result (need_of width height) 0)
        cand.old cand.new }
    ensures buf { UntouchedPast (after_by result (need_of width height) 0)
        buf.old buf.new }
    ensures regions { regions.new
        ≡ after_by result (groups_of (plane width gray.now) width height)
        regions.old }
    ensures hull { hull.new
        ≡ after_by result (trace_of gray.now width height most).hull
        hull.old }
    ensures found { found.new
        ≡ after_by result (is_found (trace_of gray.now width height most).quad)
        found.old }
    ensures quad { quad.new
        ≡ after_by result (found_numbers (trace_of gray.now width height most).quad)
        quad.old }
    ensures tried { tried.new
        ≡ after_by result (trace_of gray.now width height most).scores.many
        tried.old }
    ensures scores { scores.new
        ≡ after_by result (score_rows (trace_of gray.now width height most).scores.list)
        scores.old }
    ensures fix { fix.new
        ≡ after_by result (ring_of (trace_of gray.now width height most).fix)
        fix.old }
    ensures fallback { fallback.new
        ≡ after_by result (ring_of (trace_of gray.now width height most).fallback)
        fallback.old }
{
    match finder::find(
        gray, width, height, most, levels, labels, stack, points, straight, cand, buf,
    ) {
        Ok(answer) => {
            *regions = answer.regions;
            c_rings::put_trace(
                answer.trace,
                hull,
                found,
                quad,
                tried,
                scores,
                fix,
                fallback,
            );
            0
        }
        Err(r) => r.number(),
    }
}

// The tags of a picture: how many, and eleven numbers of each of four places.
#[unsafe(no_mangle)]
pub extern "C" fn lcr_tags(
    gray: &[u8],
    width: usize,
    height: usize,
    most: u32,
    levels: &mut [u8],
    labels: &mut [u32],
    stack: &mut [u32],
    points: &mut [f32],
    straight: &mut [f32],
    cand: &mut [f32],
    buf: &mut [f32],
    many: &mut usize,
    tags: &mut [f32; 44],
) -> u32
    ensures number { result ≡ result_of (tags_by (check_find width height (length gray.now)
        (length levels.old) (length labels.old)
        (length stack.old) (length points.old)
        (length straight.old) (length cand.old)
        (length buf.old) most) gray.now width height most) }
    ensures levels { levels.new
        ≡ levels_after result gray.now width height levels.old }
    ensures labels { labels.new
        ≡ labels_after result gray.now width height labels.old }
    ensures stack { StackAfter result width height stack.old stack.new }
    ensures points { UntouchedPast (after_by result (need_of width height) 0)
        points.old points.new }
    ensures straight { UntouchedPast (after_by result (need_of width height) 0)
        straight.old straight.new }
    ensures cand { UntouchedPast (after_by result (need_of width height) 0)
        cand.old cand.new }
    ensures buf { UntouchedPast (after_by result (need_of width height) 0)
        buf.old buf.new }
    ensures many { many.new
        ≡ after_by result (length (tags_of gray.now width height most))
        many.old }
    ensures tags { tags.new
        ≡ after_by result (list_numbers (padded 4 (tags_of gray.now width height most)))
        tags.old }
{
    match tag_list::tags(
        gray, width, height, most, levels, labels, stack, points, straight, cand, buf,
    ) {
        Ok(t) => {
            *many = t.many;
            *tags = c_rings::tags::numbers(t.list);
            0
        }
        Err(r) => r.number(),
    }
}
