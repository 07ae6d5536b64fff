// The tray list: a PGM file or a record on standard input, its listing on standard output. A file's
// header is read byte by byte, a record's head as ten bytes, then as many pixels as these ask for:
// none where they are refused, and no byte past the pixels.
#![tactic(auto)]

ghost use Rattle.std.specs.Prelude.{◌≡◌, ◌+◌, ◌≤◌, length, take};
ghost use Rattle.tray.specs.Record.{asked};
ghost use Rattle.tray.specs.Input.{reads};

use input::{read_part, read_rest};

// The number of standard output.
const STDOUT_FILENO: i32 = 1;

// How many bytes of pixels a head of n bytes asks for.
fn pixels_after(bytes: &[u8], n: usize) -> usize
    requires { n ≤ length bytes.now }
    ensures answer { result ≡ asked (take n bytes.now) }
    ensures most { result ≤ 25600 }
{
    tray::record::pixels(&bytes[..n])
}

// Reads a record behind its first two bytes, and answers how many bytes there are.
fn read_record(bytes: &mut [u8]) -> usize
    requires { 29696 ≤ length bytes.old }
    ensures most { result ≤ 29696 }
    ensures bounds { result ≤ 10 + asked (take 10 bytes.new) }
    ensures letters { take 2 bytes.new ≡ take 2 bytes.old }
{
    let head = 2 + read_part(bytes, 2, 8);
    let more = pixels_after(bytes, head);
    head + read_part(bytes, 10, more)
}

// Reads an input, and answers how many bytes: no more than its own bytes ask for.
fn read_input(bytes: &mut [u8]) -> usize
    requires { 29696 ≤ length bytes.old }
    ensures most { result ≤ 29696 }
    ensures bounds { result ≤ reads bytes.new }
{
    let n = read_part(bytes, 0, 2);
    if n < 2 {
        return n;
    }
    if pgm::has_letters(bytes) {
        return read_rest(bytes, 160);
    }
    read_record(bytes)
}

// Prints the listing of the input in the first n bytes.
fn print(bytes: &[u8], n: usize)
    requires { n ≤ length bytes.now }
{
    let l = traylist_text::listing(&bytes[..n]);
    let text = l.bytes;
    let len = l.len;
    io::write_all(STDOUT_FILENO, &text[..len]);
}

fn main() {
    let mut bytes = io::large_buffer();
    let n = read_input(&mut bytes);
    print(&bytes, n);
}
