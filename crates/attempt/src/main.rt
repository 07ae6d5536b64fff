// Reads an attempt from standard input and writes its trace as text: see crate `attempt_text`.
#![tactic(auto)]

ghost use Rattle.word_bytes.specs.Inner.{HasPlaces};

// The numbers of standard input and standard output.
const STDIN_FILENO: i32 = 0;

const STDOUT_FILENO: i32 = 1;

// Room for the longest record.
fn room() -> [u8; 1179680]
    ensures { HasPlaces 1179680 result }
{
    [0; 1179680]
}

// Writes the text of a record.
fn answer(record: &[u8]) {
    let p = attempt_text::text(record);
    let bytes = p.bytes;
    let len = p.len;
    io::write_all(STDOUT_FILENO, &bytes[..len]);
}

// Reads a record into the room and answers it.
fn read(all: &mut [u8]) {
    let n = io::read_full(STDIN_FILENO, all);
    answer(&all[..n]);
}

fn main() {
    let mut all = room();
    read(&mut all);
}
