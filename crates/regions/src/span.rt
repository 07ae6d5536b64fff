// The box of a label, in cells.
ghost use Rattle.std.specs.Prelude.{◌+◌, ◌<◌, length};
ghost use Rattle.regions.specs.Inner.{Cells, LabelBoxed, BoxSmall, Grown};

// A box in cells: right and bottom are one past the last.
#[derive(Drop)]
pub struct Span {
    pub x0: usize,
    pub y0: usize,
    pub x1: usize,
    pub y1: usize,
}

// The box with the cell at column `x` and row `y` in it, where `is` says so.
fn grown(b: Span, is: bool, x: usize, y: usize) -> Span
    requires { (x < 262144) × (y < 262144) }
    ensures { Grown is x y b.x0 b.y0 b.x1 b.y1 result.x0 result.y0 result.x1 result.y1 }
{
    if !is {
        return b;
    }
    Span {
        x0: b.x0.min(x),
        y0: b.y0.min(y),
        x1: b.x1.max(x + 1),
        y1: b.y1.max(y + 1),
    }
}

// The box in cells of the label `l`, in a grid of `h` rows of `w` cells.
pub(crate) fn span_of(labels: &[u32], l: u32, w: usize, h: usize) -> Span
    requires { Cells labels.now w h }
    ensures x0 { BoxSmall w h result.x0 result.y0 result.x1 result.y1 }
    ensures boxed { LabelBoxed labels.now l w h (length labels.now) result.x0 result.y0 result.x1
        result.y1 }
{
    let mut b = Span {
        x0: w,
        y0: h,
        x1: 0,
        y1: 0,
    };
    let mut x = 0;
    let mut y = 0;
    for cell in labels {
        b = grown(b, *cell == l, x, y);
        x += 1;
        if x == w {
            x = 0;
            y += 1;
        }
    }
    b
}
