// The tray list: the listing of the picture of a PGM file or a record, as text. Everything but
// reading and writing.
#![tactic(auto)]

ghost use Rattle.std.specs.Prelude.{◌≡◌, ◌≤◌, length};
ghost use Rattle.traylist_text.specs.Listing.{text_of, filled};

pub mod claims;
mod describe;
mod lines;

// A listing: its bytes, with zeros after them, and how many there are.
#[derive(Drop)]
pub struct Printed {
    pub bytes: [u8; 512],
    pub len: usize,
}

// The listing of a PGM file or a record. Bytes after the pixels do not matter.
pub fn listing(input: &[u8]) -> Printed
    ensures bytes { result.bytes ≡ filled (text_of input.now) }
    ensures len { result.len ≡ length (text_of input.now) }
    ensures most { result.len ≤ 512 }
{
    let mut bytes = [0u8; 512];
    let len = match tray::find(input) {
        Err(r) => lines::line(&mut bytes, 0, b"refused", &[r.number()]),
        Ok(found) => {
            let end = found.at + found.width * found.height;
            describe::picture_text(&input[found.at..end], found.width, found.height, &mut bytes)
        }
    };
    Printed { bytes, len }
}
