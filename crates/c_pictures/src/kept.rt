// The regions of a picture as 26 numbers: how many there are, how many are kept, and of each of
// four its label, cells, left, top, right and bottom.
ghost use Rattle.std.specs.Prelude.{◌≡◌, ◌%◌};
ghost use Rattle.c_pictures.specs.Kept.{region_numbers};

use regions::answer::Kept;

// How many, as 32 bits; a picture has fewer.
// Kept: region_numbers takes the remainder, and `try_from` has no number to give past 32 bits.
fn many(n: usize) -> u32
    ensures { result ≡ n % 4294967296 }
{
    (n % 4294967296) as u32
}

// The numbers of all regions.
pub fn numbers(k: Kept) -> [u32; 26]
    ensures { result ≡ region_numbers k }
{
    let list = k.list;
    let a = list[0];
    let b = list[1];
    let c = list[2];
    let d = list[3];
    [
        many(k.all),
        many(k.kept),
        a.label,
        a.cells,
        a.x0,
        a.y0,
        a.x1,
        a.y1,
        b.label,
        b.cells,
        b.x0,
        b.y0,
        b.x1,
        b.y1,
        c.label,
        c.cells,
        c.x0,
        c.y0,
        c.x1,
        c.y1,
        d.label,
        d.cells,
        d.x0,
        d.y0,
        d.x1,
        d.y1,
    ]
}
