// Regions, and those of a picture that are kept.

// A region: its label, how many region cells it has, and its box in pixels. The box has its left
// and top pixels; right and bottom are one past the last, and at most the picture's sides.
#[derive(Clone, Copy, Default)]
pub struct Region {
    pub label: u32,
    pub cells: u32,
    pub x0: u32,
    pub y0: u32,
    pub x1: u32,
    pub y1: u32,
}

// How many regions there are, how many of them are kept (at most 4), and those, largest first. The
// places past these hold zeros.
// Kept: how many, beside four places: lists lie in fixed memory (a rule of the project).
#[derive(Clone, Copy)]
pub struct Kept {
    pub all: usize,
    pub kept: usize,
    pub list: [Region; 4],
}
