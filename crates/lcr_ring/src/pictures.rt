// The picture door for C. Refusals: 1, 2, 3.
ghost use Rattle.std.specs.Prelude.{◌≡◌, length};
ghost use Rattle.laws.specs.Plane.{plane};
ghost use Rattle.picture.specs.Door.{check_grids, levels_after, labels_after, StackAfter};
ghost use Rattle.regions.specs.Regions.{kept_regions};
ghost use Rattle.c_pictures.specs.Answers.{after_by};
ghost use Rattle.c_pictures.specs.Kept.{region_numbers};

// The level grid, the labels and the regions of a picture.
#[unsafe(no_mangle)]
pub extern "C" fn lcr_picture(
    gray: &[u8],
    width: usize,
    height: usize,
    levels: &mut [u8],
    labels: &mut [u32],
    stack: &mut [u32],
    regions: &mut [u32; 26],
) -> u32
    ensures number { result ≡ check_grids width height (length gray.now)
        (length levels.old) (length labels.old)
        (length stack.old) }
    ensures levels { levels.new
        ≡ levels_after result gray.now width height levels.old }
    ensures labels { labels.new
        ≡ labels_after result gray.now width height labels.old }
    ensures stack { StackAfter result width height stack.old stack.new }
    ensures regions { regions.new
        ≡ after_by result (region_numbers (kept_regions (plane width gray.now) width height))
        regions.old }
{
    match picture::picture(gray, width, height, levels, labels, stack) {
        Ok(kept) => {
            *regions = c_pictures::kept::numbers(kept);
            0
        }
        Err(r) => r.number(),
    }
}
