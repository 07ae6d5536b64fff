// The threshold of a dark and a light level, in whole numbers.
#![tactic(auto)]

ghost use Rattle.std.specs.Prelude.{◌≡◌};
ghost use Rattle.threshold.specs.Threshold.{threshold};

// light - 0.2 * contrast in f32, cut to a byte, is (4 * light + dark) / 5 at every pair of bytes
// whose contrast is 80 or more; below that it is 0.
pub fn threshold_of(dark: u8, light: u8) -> u8
    ensures { result ≡ threshold dark light }
{
    let d = dark as u32;
    let l = light as u32;
    if l < d + 80 {
        return 0;
    }
    ((4 * l + d) / 5) as u8
}
