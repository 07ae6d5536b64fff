// The tags of a picture: a PGM file with sides up to 2,048 on standard input, a line of text for
// each tag on standard output. What a refusal means, and that a write failed, stands on standard
// error.
#![tactic(auto)]

ghost use Rattle.std.specs.Prelude.{◌≡◌, ◌≤◌, length};
ghost use Rattle.refusal.specs.Numbers.{said};
ghost use Rattle.word_bytes.specs.Inner.{HasPlaces};
ghost use Rattle.tag_list.specs.Tags.{tags_by};
ghost use Rattle.tag_text.specs.Lines.{answer_text, filled};
ghost use Rattle.tags.specs.Taken.{TagsPicture};

use refusal::Refusal;
use tag_list::tag::Tags;
use tag_text::Printed;

// The numbers of standard output and standard error.
const STDOUT_FILENO: i32 = 1;

const STDERR_FILENO: i32 = 2;

// Room for a file: 4,096 bytes of a header and 2,048 × 2,048 pixels.
fn file_room() -> [u8; 4198400]
    ensures { HasPlaces 4198400 result }
{
    [0; 4198400]
}

// Room for the level grid of such a picture: 128 × 128 cells of 16 pixels a side.
fn level_room() -> [u8; 16384]
    ensures { 16384 ≡ length result }
{
    [0; 16384]
}

// Room for its labels, and for as many waiting cells: 256 × 256 cells of 8 pixels a side.
fn cell_room() -> [u32; 65536]
    ensures { 65536 ≡ length result }
{
    [0; 65536]
}

// Room for a list of points: 4 × (2,048 + 2,048) numbers.
fn point_room() -> [f32; 16384]
    ensures { 16384 ≡ length result }
{
    [0.0; 16384]
}

// The tags of a picture of w × h bytes, of any version. No check refuses it.
fn tags_of(gray: &[u8], w: usize, h: usize) -> Result<Tags, Refusal>
    requires { TagsPicture w h (length gray.now) }
    ensures { said result ≡ tags_by 0 gray.now w h 64 }
{
    let mut levels = level_room();
    let mut labels = cell_room();
    let mut stack = cell_room();
    let mut points = point_room();
    let mut straight = point_room();
    let mut cand = point_room();
    let mut buf = point_room();
    tag_list::tags(
        gray,
        w,
        h,
        64,
        &mut levels,
        &mut labels,
        &mut stack,
        &mut points,
        &mut straight,
        &mut cand,
        &mut buf,
    )
}

// The text of the tags of a picture.
fn text_of(gray: &[u8], w: usize, h: usize) -> Printed
    requires { TagsPicture w h (length gray.now) }
    ensures bytes { result.bytes ≡ filled (answer_text (tags_by 0 gray.now w h 64)) }
    ensures len { result.len ≡ length (answer_text (tags_by 0 gray.now w h 64)) }
    ensures most { result.len ≤ length result.bytes }
{
    tag_text::text(tags_of(gray, w, h))
}

// Writes a text to standard output.
fn print(p: Printed)
    requires { p.len ≤ length p.bytes }
{
    let bytes = p.bytes;
    let len = p.len;
    if !io::write_all(STDOUT_FILENO, &bytes[..len]) {
        io::write_all(
            STDERR_FILENO,
            b"tags: standard output could not be written\n",
        );
    }
}

// Writes to standard error what a refusal means.
fn explain(r: Refusal) {
    let mut line = [0u8; 127];
    let len = tag_text::meaning::put_refusal(&mut line, r.number());
    io::write_all(STDERR_FILENO, &line[..len]);
}

// Reads a file into the room and answers it.
fn read(room: &mut [u8])
    requires { 4198400 ≤ length room.old }
{
    match input::read_file(room, 2048) {
        Err(r) => {
            print(tag_text::refused(r.number()));
            explain(r);
        }
        Ok(p) => {
            let end = p.at + p.width * p.height;
            print(text_of(&room[p.at..end], p.width, p.height));
        }
    }
}

fn main() {
    let mut room = file_room();
    read(&mut room);
}
