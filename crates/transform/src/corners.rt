// Four corners as f64 numbers, and their equations.
ghost use Rattle.std.specs.Prelude.{◌≡◌, [], length};
ghost use Rattle.transform.specs.Mapping.{corner_rows, matrix, numbers};

// x as an f64, which holds every f32.
pub fn wide(x: f32) -> f64
    ensures { result ≡ x }
{
    std::num::f32_to_f64_with_nan(x)
}

// Four corners' numbers as f64.
pub fn wide8(s: [f32; 8]) -> [f64; 8]
    ensures { result ≡ numbers s }
{
    [
        wide(s[0]),
        wide(s[1]),
        wide(s[2]),
        wide(s[3]),
        wide(s[4]),
        wide(s[5]),
        wide(s[6]),
        wide(s[7]),
    ]
}

// Puts the two equations of a corner into a list of sixteen numbers: (u, v) goes to (x, y).
fn put_corner(a: &mut [f64], u: f64, v: f64, x: f64, y: f64)
    requires { length a.old ≡ 16 }
    ensures { a.new ≡ corner_rows u v x y [] }
{
    let nx = -x;
    let ny = -y;
    a.copy_from_slice(&[
        u,
        v,
        1.0,
        0.0,
        0.0,
        0.0,
        nx * u,
        nx * v,
        0.0,
        0.0,
        0.0,
        u,
        v,
        1.0,
        ny * u,
        ny * v,
    ]);
}

// The matrix of the eight equations of four corners.
pub fn equations_of(s: [f64; 8], d: [f64; 8]) -> [f64; 64]
    ensures { result ≡ matrix s d }
{
    let mut a = [0f64; 64];
    put_corner(&mut a[..16], s[0], s[1], d[0], d[1]);
    put_corner(&mut a[16..32], s[2], s[3], d[2], d[3]);
    put_corner(&mut a[32..48], s[4], s[5], d[4], d[5]);
    put_corner(&mut a[48..], s[6], s[7], d[6], d[7]);
    a
}
