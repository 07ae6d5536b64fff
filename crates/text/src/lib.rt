// Bytes, words and numbers written into a text. Each function takes the place to begin at and gives
// the place after what it wrote.
#![tactic(auto)]

ghost use Rattle.std.specs.Prelude.{◌≡◌, [], ◌∷◌, ◌+◌, ◌<◌, ◌≤◌, length};
ghost use Rattle.laws.specs.Lent.{Stored};
ghost use Rattle.text.specs.Text.{decimal, last_digits, hex_digit, hex};

// One byte.
pub fn put_byte(out: &mut [u8], at: usize, b: u8) -> usize
    requires { at < length out.old }
    ensures { Stored at (b ∷ []) out.old out.new result }
{
    out[at] = b;
    at + 1
}

// A word, or any other bytes.
pub fn put_word(out: &mut [u8], at: usize, word: &[u8]) -> usize
    requires { at + length word.now ≤ length out.old }
    ensures { Stored at word.now out.old out.new result }
{
    let end = at + word.len();
    out[at..end].copy_from_slice(word);
    end
}

// The digit of a number below ten.
fn digit(d: usize) -> u8
    requires { d < 10 }
    ensures { result ≡ 48 + d }
{
    48 + d as u8
}

// A number in decimal.
pub fn put_number(out: &mut [u8], at: usize, n: usize) -> usize
    requires { at + length (decimal n) ≤ length out.old }
    ensures { Stored at (decimal n) out.old out.new result }
{
    if n < 10 {
        return put_byte(out, at, digit(n));
    }
    let a = put_number(out, at, n / 10);
    put_byte(out, a, digit(n % 10))
}

// A space and a number in decimal.
pub fn put_spaced(out: &mut [u8], at: usize, n: usize) -> usize
    requires { at + (1 + length (decimal n)) ≤ length out.old }
    ensures { Stored at (32 ∷ decimal n) out.old out.new result }
{
    let a = put_byte(out, at, b' ');
    put_number(out, a, n)
}

// So many decimal digits of a number, its last ones.
pub fn put_digits(out: &mut [u8], at: usize, digits: usize, n: usize) -> usize
    requires { at + digits ≤ length out.old }
    ensures { Stored at (last_digits digits n) out.old out.new result }
{
    if digits == 0 {
        return at;
    }
    let next = put_digits(out, at, digits - 1, n / 10);
    put_byte(out, next, digit(n % 10))
}

// The hex digit of a number below 16.
fn hex_digit(d: u64) -> u8
    requires { d < 16 }
    ensures { result ≡ hex_digit d }
{
    if d < 10 {
        return 48 + d as u8;
    }
    87 + d as u8
}

// So many hex digits of a number, its last ones.
// Kept: beside `put_digits`, since `hex` and `last_digits` of specs/Text.antt are two definitions.
pub fn put_hex(out: &mut [u8], at: usize, digits: usize, n: u64) -> usize
    requires { at + digits ≤ length out.old }
    ensures { Stored at (hex digits n) out.old out.new result }
{
    if digits == 0 {
        return at;
    }
    let a = put_hex(out, at, digits - 1, n / 16);
    put_byte(out, a, hex_digit(n % 16))
}
