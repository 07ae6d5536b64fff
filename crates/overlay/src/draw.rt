// What is drawn: the kept regions, then the tags. A later line lies over an earlier one.
use crate::areas::all_regions;
use crate::found::all_tags;
use refusal::Refusal;

// Draws the kept regions of a picture, or tells the picture door's refusal.
fn regions_of(
    gray: &[u8],
    w: usize,
    h: usize,
    plane: &mut [u8],
    levels: &mut [u8],
    labels: &mut [u32],
    stack: &mut [u32],
    points: &mut [f32],
    list: &mut [f32],
) -> Result<(), Refusal> {
    let k = picture::picture(gray, w, h, levels, labels, stack)?;
    all_regions(gray, w, h, plane, levels, labels, k, points, list);
    Ok(())
}

// Draws the tags of a picture, or tells the refusal of `tags`.
fn tags_of(
    gray: &[u8],
    w: usize,
    h: usize,
    plane: &mut [u8],
    levels: &mut [u8],
    labels: &mut [u32],
    stack: &mut [u32],
    points: &mut [f32],
    straight: &mut [f32],
    cand: &mut [f32],
    buf: &mut [f32],
) -> Result<(), Refusal> {
    let t = tag_list::tags(
        gray, w, h, 64, levels, labels, stack, points, straight, cand, buf,
    )?;
    all_tags(plane, w, h, t);
    Ok(())
}

// Draws what the doors answer for a picture into a plane of colour numbers, or tells a refusal.
pub(crate) fn draw(
    gray: &[u8],
    w: usize,
    h: usize,
    plane: &mut [u8],
    levels: &mut [u8],
    labels: &mut [u32],
    stack: &mut [u32],
    points: &mut [f32],
    straight: &mut [f32],
    cand: &mut [f32],
    buf: &mut [f32],
) -> Result<(), Refusal> {
    regions_of(gray, w, h, plane, levels, labels, stack, points, straight)?;
    tags_of(
        gray, w, h, plane, levels, labels, stack, points, straight, cand, buf,
    )
}
