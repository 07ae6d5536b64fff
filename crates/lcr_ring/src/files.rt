// PGM files for C. Refusals of the reader, in order: 14, 15, 1, 2; of the writer: 1, 2, 3.
ghost use Rattle.std.specs.Prelude.{◌≡◌, length};
ghost use Rattle.laws.specs.Said.{left_of, result_of};
ghost use Rattle.refusal.specs.Numbers.{answered};
ghost use Rattle.pgm.specs.Doors.{file_answer, file_text, check_write, file_after};
ghost use Rattle.c_pictures.specs.Files.{width_after, height_after, at_after};

// The sides of a file's picture, and the place of its pixels.
#[unsafe(no_mangle)]
pub extern "C" fn lcr_pgm_read(
    file: &[u8],
    width: &mut usize,
    height: &mut usize,
    at: &mut usize,
) -> u32
    ensures answer { result ≡ result_of (file_answer file.now) }
    ensures width { width.new ≡ width_after (file_answer file.now) width.old }
    ensures height { height.new ≡ height_after (file_answer file.now) height.old }
    ensures at { at.new ≡ at_after (file_answer file.now) at.old }
{
    let a = pgm::read(file);
    c_pictures::files::put_picture(a, width, height, at)
}

// The file of a picture in the first places of out, and how many bytes it has.
#[unsafe(no_mangle)]
pub extern "C" fn lcr_pgm_write(
    gray: &[u8],
    width: usize,
    height: usize,
    out: &mut [u8],
    len: &mut usize,
) -> u32
    ensures answer { result ≡ result_of (answered
        (check_write width height gray.now (length out.old))
        (length (file_text width height gray.now))) }
    ensures len { len.new ≡ left_of (answered
        (check_write width height gray.now (length out.old))
        (length (file_text width height gray.now))) len.old }
    ensures out { out.new ≡ file_after
        (check_write width height gray.now (length out.old))
        (file_text width height gray.now) out.old }
{
    let a = pgm::write(gray, width, height, out);
    c_pictures::files::put_bytes(a, len)
}
