// What a refusal means, told on standard error.
use refusal::Refusal;

// The number of standard error.
pub const STDERR_FILENO: i32 = 2;

// Writes the words of a refusal.
fn words(r: Refusal) {
    match r {
        Refusal::Header => io::write_all(
            STDERR_FILENO,
            b": not the header of a binary PGM file (P5)\n",
        ),
        Refusal::Maximum => io::write_all(STDERR_FILENO, b": the greatest value is not 255\n"),
        Refusal::Side => io::write_all(STDERR_FILENO, b": a side is outside 1 to 4,096\n"),
        Refusal::Record => io::write_all(STDERR_FILENO, b": a side is over 1,024\n"),
        Refusal::Bytes => io::write_all(STDERR_FILENO, b": pixels are missing\n"),
        _ => io::write_all(STDERR_FILENO, b": a list has too little room\n"),
    };
}

// Writes `refused`, the number and its words.
pub(crate) fn tell(r: Refusal) {
    io::write_all(STDERR_FILENO, b"refused ");
    io::print_decimal(STDERR_FILENO, r.number() as u64);
    words(r);
}
