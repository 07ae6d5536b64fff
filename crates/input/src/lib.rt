// A PGM file on standard input, read into a lent list: its header byte by byte, then as many pixels
// as this asks for. None are read where the header is refused, and no byte past them.
#![tactic(auto)]

ghost use Rattle.std.specs.Prelude.{true, ◌≡◌, ◌+◌, ◌*◌, ◌≤◌, length, take};
ghost use Rattle.refusal.specs.Numbers.{said};
ghost use Rattle.pgm.specs.Form.{has_letters};
ghost use Rattle.tray.specs.Input.{head_read, asked_to, file_to};
ghost use Rattle.input.specs.Input.{FileRead, FilePictured};

use pgm::Image;
use pgm::steps::Reading;
use refusal::Refusal;

// The number of standard input.
const STDIN_FILENO: i32 = 0;

// Reads up to n bytes into the places from at on, and answers how many came. What stands before
// them stays.
pub fn read_part(bytes: &mut [u8], at: usize, n: usize) -> usize
    requires { at + n ≤ length bytes.old }
    ensures most { result ≤ n }
    ensures bytes { take at bytes.new ≡ take at bytes.old }
{
    let end = at + n;
    io::read_full(STDIN_FILENO, &mut bytes[at..end])
}

// Reads the header of a file behind its letters, byte by byte until it or the input has ended.
pub fn read_header(bytes: &mut [u8]) -> Reading
    requires { 4096 ≤ length bytes.old }
    ensures bounds { (2 ≤ result.at) × (result.at ≤ 4096) }
    ensures bytes { result ≡ head_read (take result.at bytes.new) }
    ensures letters { take 2 bytes.new ≡ take 2 bytes.old }
{
    let mut h = pgm::steps::begin();
    for at in 2..4096 {
        if pgm::steps::ended(h) {
            return h;
        }
        if read_part(bytes, at, 1) < 1 {
            return h;
        }
        h = pgm::steps::step(h, bytes[at]);
    }
    h
}

// Reads a file with sides up to `most` behind its letters, and answers how many bytes there are.
pub fn read_rest(bytes: &mut [u8], most: usize) -> usize
    requires most_bound { most ≤ 4096 }
    requires most_in_bounds { 4096 + most * most ≤ length bytes.old }
    ensures bounds { (2 ≤ result) × (result ≤ 4096 + most * most) }
    ensures most { result ≤ (head_read bytes.new).at + asked_to most (head_read bytes.new) }
    ensures letters { take 2 bytes.new ≡ take 2 bytes.old }
{
    let h = read_header(bytes);
    let at = h.at;
    let more = tray::file::pixels(h, most);
    at + read_part(bytes, at, more)
}

// The picture of a file in the first n bytes, which begin with the letters.
fn find(bytes: &[u8], n: usize, most: usize) -> Result<Image, Refusal>
    requires n_in_bounds { n ≤ length bytes.now }
    requires bytes_value { has_letters (take n bytes.now) ≡ true }
    requires most_bound { most ≤ 4096 }
    ensures { said result ≡ file_to most (take n bytes.now) }
{
    tray::file::find(&bytes[..n], most)
}

// Reads a file with sides up to `most`. Refusals in order: 14, not the header of a PGM file; 15,
// another maximum value than 255; 1, a side outside 1..4,096; 13, a side over `most`; 2, too few
// pixels.
pub fn read_file(bytes: &mut [u8], most: usize) -> Result<Image, Refusal>
    requires most_bound { most ≤ 4096 }
    requires most_in_bounds { 4096 + most * most ≤ length bytes.old }
    ensures bytes { FileRead most bytes.new (said result) }
    ensures pictured { FilePictured most bytes.new (said result) }
{
    let n = read_part(bytes, 0, 2);
    if n < 2 {
        return Err(Refusal::Header);
    }
    if !pgm::has_letters(bytes) {
        return Err(Refusal::Header);
    }
    let all = read_rest(bytes, most);
    find(bytes, all, most)
}
