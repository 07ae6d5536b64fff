// The tray list for C. Refusals: of a file 14, 15, 1, 13, 2; of a record 13.
ghost use Rattle.std.specs.Prelude.{◌≡◌, length};
ghost use Rattle.traylist_text.specs.Listing.{text_of, filled};
ghost use Rattle.tray.specs.Input.{check_input};
ghost use Rattle.c_pictures.specs.Answers.{after_by};

// The listing of the picture of a PGM file or a record: its bytes, zeros after them, and how many there are.
#[unsafe(no_mangle)]
pub extern "C" fn lcr_listing(input: &[u8], text: &mut [u8; 512], len: &mut usize) -> u32
    ensures answer { result ≡ check_input input.now }
    ensures text { text.new ≡ after_by result (filled (text_of input.now)) text.old }
    ensures len { len.new ≡ after_by result (length (text_of input.now)) len.old }
{
    match tray::check(input) {
        Ok(_) => {
            let p = traylist_text::listing(input);
            let bytes = p.bytes;
            *text = bytes;
            *len = p.len;
            0
        }
        Err(r) => r.number(),
    }
}
