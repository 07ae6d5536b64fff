// The ink of many boxes for C. Refusals, in order: 1, 2, 3, 18.
ghost use Rattle.std.specs.Prelude.{◌≡◌, length};
ghost use Rattle.darkness.specs.Door.{check_darkness, table_after, counts_after};

// The table of running ink counts of a picture, and the number of ink pixels of each box.
#[unsafe(no_mangle)]
pub extern "C" fn lcr_darkness(
    gray: &[u8],
    levels: &[u8],
    width: usize,
    height: usize,
    boxes: &[u32],
    table: &mut [u32],
    counts: &mut [u32],
) -> u32
    ensures answer { result ≡ check_darkness width height (length gray.now) (length levels.now)
        (length table.old) (length counts.old) boxes.now }
    ensures table { table.new
        ≡ table_after result gray.now levels.now width height
        table.old }
    ensures counts { counts.new
        ≡ counts_after result gray.now levels.now width boxes.now
        counts.old }
{
    c_answers::number(darkness::darkness(gray, levels, width, height, boxes, table, counts))
}
