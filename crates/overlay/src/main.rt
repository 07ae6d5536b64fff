// The overlay: a PGM file with sides up to 1,024 on standard input, a colour picture (PPM, P6) on
// standard output, with what the finder sees drawn over the grey picture: of each kept region its
// box, its hull and its quad, and of each tag its outline, its first corner and its direction.
#![tactic(auto)]

ghost use Rattle.std.specs.Prelude.{◌≡◌, ◌≤◌, length};
ghost use Rattle.word_bytes.specs.Inner.{HasPlaces};
ghost use Rattle.tray.specs.Input.{FileAt};
ghost use Rattle.overlay.specs.Shown.{Shown};

use refusals::STDERR_FILENO;

mod areas;
mod draw;
mod found;
mod paint;
mod refusals;

// Room for the largest file: its header and 1,024 × 1,024 pixels.
fn file_room() -> [u8; 1052672]
    ensures { HasPlaces 1052672 result }
{
    [0; 1052672]
}

// Room for a colour number a pixel.
fn plane_room() -> [u8; 1048576]
    ensures { HasPlaces 1048576 result }
{
    [0; 1048576]
}

// Room for a threshold each 16 × 16 pixels.
fn levels_room() -> [u8; 4096]
    ensures { 4096 ≡ length result }
{
    [0; 4096]
}

// Room for a label each 8 × 8 pixels.
fn labels_room() -> [u32; 16384]
    ensures { 16384 ≡ length result }
{
    [0; 16384]
}

// Room for four numbers each row and each column.
fn points_room() -> [f32; 8192]
    ensures { 8192 ≡ length result }
{
    [0.0; 8192]
}

// Draws over a picture of w × h pixels and writes it, or tells the refusal.
fn show(gray: &[u8], w: usize, h: usize, plane: &mut [u8])
    requires { Shown w h gray.now plane.old }
{
    let mut levels = levels_room();
    let mut labels = labels_room();
    let mut stack = labels_room();
    let mut points = points_room();
    let mut straight = points_room();
    let mut cand = points_room();
    let mut buf = points_room();
    let drawn = draw::draw(
        gray,
        w,
        h,
        plane,
        &mut levels,
        &mut labels,
        &mut stack,
        &mut points,
        &mut straight,
        &mut cand,
        &mut buf,
    );
    if let Err(r) = drawn {
        refusals::tell(r);
        return;
    }
    if !paint::write_picture(gray, w, h, plane) {
        io::write_all(
            STDERR_FILENO,
            b"overlay: the picture could not be written\n",
        );
    }
}

// The picture of w × h pixels from place at on.
fn show_at(bytes: &[u8], w: usize, h: usize, at: usize, plane: &mut [u8])
    requires file_at { FileAt 1024 bytes.now w h at }
    requires in_bounds { 1048576 ≤ length plane.old }
{
    let end = at + w * h;
    show(&bytes[at..end], w, h, &mut plane[..w * h]);
}

// Reads a file and shows its picture.
fn read(bytes: &mut [u8], plane: &mut [u8])
    requires in_bounds { 1052672 ≤ length bytes.old }
    requires in_bounds_2 { 1048576 ≤ length plane.old }
{
    match input::read_file(bytes, 1024) {
        Err(r) => refusals::tell(r),
        Ok(p) => show_at(bytes, p.width, p.height, p.at, plane),
    }
}

fn main() {
    let mut bytes = file_room();
    let mut plane = plane_room();
    read(&mut bytes, &mut plane);
}
