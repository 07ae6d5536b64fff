// The tags of a picture as text, a line for each; and what the numbers of refusals mean, in words.
// Everything of the program `tags` but reading and writing.
#![tactic(auto)]

ghost use Rattle.std.specs.Prelude.{◌≡◌, ◌≤◌, [], ◌∷◌, length, replicate};
ghost use Rattle.refusal.specs.Numbers.{said};
ghost use Rattle.text.specs.Text.{line_of, refused_word};
ghost use Rattle.tag_text.specs.Lines.{answer_text, filled};

use refusal::Refusal;
use tag_list::tag::Tags;

mod decimal;
mod lines;
pub mod meaning;

// A text: its bytes, with zeros after them, and how many there are.
#[derive(Drop)]
pub struct Printed {
    pub bytes: [u8; 1024],
    pub len: usize,
}

// Room for a text.
fn room() -> [u8; 1024]
    ensures { result ≡ replicate 1024 0 }
{
    [0; 1024]
}

// The text of an answer. A line for each tag, as
// `version 3 agreement 0.981 mirrored no corners 12.3 45.6 78.9 45.2 79.0 112.4 12.1 112.8`, corners
// in the ring's own order, x then y; `none` where there is no tag; `refused N` for a refusal.
pub fn text(a: Result<Tags, Refusal>) -> Printed
    ensures bytes { result.bytes ≡ filled (answer_text (said a)) }
    ensures len { result.len ≡ length (answer_text (said a)) }
    ensures most { result.len ≤ length result.bytes }
{
    let mut bytes = room();
    let end = lines::put_text(&mut bytes, a);
    Printed {
        bytes: bytes,
        len: end,
    }
}

// The text of a refusal before there is an answer.
pub fn refused(n: u32) -> Printed
    ensures bytes { result.bytes ≡ filled (line_of refused_word (n ∷ [])) }
    ensures len { result.len ≡ length (line_of refused_word (n ∷ [])) }
    ensures most { result.len ≤ length result.bytes }
{
    let mut bytes = room();
    let end = lines::put_refused(&mut bytes, 0, n);
    Printed {
        bytes: bytes,
        len: end,
    }
}
