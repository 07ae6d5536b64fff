// Colours, and the picture written with them: a PPM file, P6, three bytes a pixel.
ghost use Rattle.std.specs.Prelude.{◌≡◌, ◌+◌, ◌*◌, ◌≤◌, ◌<◌, length};
ghost use Rattle.overlay.specs.Shown.{Shown};

// The number of standard output.
const STDOUT_FILENO: i32 = 1;

// Colour numbers; 0 is the grey of the picture.
// Kept: no enum, a rule of the project: memory is fixed, and crate `drawing` writes bytes into a lent list.
pub const BOX: u8 = 1;

pub const HULL: u8 = 2;

pub const QUAD: u8 = 3;

pub const TAG: u8 = 4;

pub const CORNER: u8 = 5;

// The colour of a number over a grey, red, green and blue: blue boxes, green hulls, orange quads,
// red tags, magenta first corners.
fn colour_of(number: u8, gray: u8) -> [u8; 3] {
    match number {
        BOX => [64, 128, 255],
        HULL => [0, 176, 0],
        QUAD => [255, 144, 0],
        TAG => [255, 0, 0],
        CORNER => [255, 0, 255],
        _ => [gray; 3],
    }
}

// One pixel of a row.
fn put_pixel(row: &mut [u8], x: usize, c: [u8; 3])
    requires { 3 * x + 2 < length row.old }
{
    row[3 * x..3 * x + 3].copy_from_slice(&c);
}

// The row of w pixels from place at on.
fn put_row(row: &mut [u8], gray: &[u8], plane: &[u8], at: usize, w: usize)
    requires w_in_bounds { 3 * w ≤ length row.old }
    requires w_in_bounds_2 { (at + w ≤ length gray.now) × (at + w ≤ length plane.now) }
{
    for x in 0..w {
        let c = colour_of(plane[at + x], gray[at + x]);
        put_pixel(row, x, c);
    }
}

// Room for a row of up to 1,024 pixels.
fn row_room() -> [u8; 3072]
    ensures { 3072 ≡ length result }
{
    [0; 3072]
}

// Writes the header.
fn write_header(w: usize, h: usize) -> bool {
    if !io::write_all(STDOUT_FILENO, b"P6\n") {
        return false;
    }
    if !io::print_decimal(STDOUT_FILENO, w as u64) {
        return false;
    }
    if !io::write_all(STDOUT_FILENO, b" ") {
        return false;
    }
    if !io::print_decimal(STDOUT_FILENO, h as u64) {
        return false;
    }
    io::write_all(STDOUT_FILENO, b"\n255\n")
}

// Writes one row.
fn write_row(row: &mut [u8], gray: &[u8], plane: &[u8], at: usize, w: usize) -> bool
    requires w_in_bounds { 3 * w ≤ length row.old }
    requires w_in_bounds_2 { (at + w ≤ length gray.now) × (at + w ≤ length plane.now) }
{
    put_row(row, gray, plane, at, w);
    io::write_all(STDOUT_FILENO, &row[..3 * w])
}

// Writes all rows of w × h pixels.
fn write_rows(row: &mut [u8], gray: &[u8], plane: &[u8], w: usize, h: usize) -> bool
    requires w_in_bounds { 3 * w ≤ length row.old }
    requires shown { Shown w h gray.now plane.now }
{
    for y in 0..h {
        if !write_row(row, gray, plane, y * w, w) {
            return false;
        }
    }
    true
}

// Writes the picture: grey where the plane has 0, else the number's colour. Whether all of it was
// written.
pub(crate) fn write_picture(gray: &[u8], w: usize, h: usize, plane: &[u8]) -> bool
    requires { Shown w h gray.now plane.now }
{
    let mut row = row_room();
    if !write_header(w, h) {
        return false;
    }
    write_rows(&mut row, gray, plane, w, h)
}
