// Why a door refuses a call. A door is a public entry: it checks what it is given, and the first
// check that fails decides.
#![tactic(auto)]

ghost use Rattle.std.specs.Prelude.{◌≡◌};
ghost use Rattle.refusal.specs.Numbers.{number_of};

// The refusals of docs/RULES.md's table, in its order.
#[derive(Clone, Copy, Debug, PartialEq, Eq)]
pub enum Refusal {
    // a side of the picture outside 1 to 4,096
    Side,
    // bytes not width times height; behind a PGM header, fewer
    Bytes,
    // a lent list that is too short
    Lent,
    // a box not within the picture, or empty
    Box,
    // an odd list of points, or over 16,384 points
    Points,
    // a coordinate not finite, or beyond 32,768 either way
    Coordinate,
    // a version outside 1 to 64
    Version,
    // a size that is not taken, or lengths that disagree
    Size,
    // a value that is not taken: a NaN, an infinity, at medians -0
    Value,
    // marks or lumas not as many as positions
    Marks,
    // a cell beyond -32,768 to 32,767
    Cell,
    // a record that is short or wrong; a file with a side over what the program takes
    Record,
    // a PGM header that does not follow the form, or is too long
    Header,
    // a PGM file's maximum value other than 255
    Maximum,
    // a pitch, a corner or a picture's sides that no proof ring has
    Plate,
    // a shortest run outside 2 to 8
    Run,
    // box numbers that are not whole fours, or a box that is not within the picture
    Boxes,
    // a coordinate that is no whole number from 0 to 8,192, doubled
    Doubled,
    // a row of more than 60 pixels, or a place that is not below their number
    Row,
}

impl Refusal {
    // Its number in the table.
    pub fn number(self) -> u32
        ensures { result ≡ number_of self }
    {
        match self {
            Refusal::Side => 1,
            Refusal::Bytes => 2,
            Refusal::Lent => 3,
            Refusal::Box => 5,
            Refusal::Points => 6,
            Refusal::Coordinate => 7,
            Refusal::Version => 8,
            Refusal::Size => 9,
            Refusal::Value => 10,
            Refusal::Marks => 11,
            Refusal::Cell => 12,
            Refusal::Record => 13,
            Refusal::Header => 14,
            Refusal::Maximum => 15,
            Refusal::Plate => 16,
            Refusal::Run => 17,
            Refusal::Boxes => 18,
            Refusal::Doubled => 21,
            Refusal::Row => 22,
        }
    }
}
