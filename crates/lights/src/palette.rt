// The palette of lights that are not at even steps: the lights, and for each stretch of light a guess at the code.
ghost use Rattle.std.specs.Prelude.{◌≡◌, ◌*◌, ◌^◌, ◌<◌, ◌≤◌, length, replicate};
ghost use Rattle.lights.specs.Lights.{light_of};
ghost use Rattle.lights.specs.inner.Fit.{Fit};
ghost use Rattle.lights.specs.inner.Palette.{middle, lights_in, reach_of, palette_size, Guesses, FilledFrom, Palette};

// The lights, 1,024 guesses, and room to fill some past the last of them.
pub const PALETTE: usize = 1328;

// Where the guesses begin.
pub const FIRST_GUESS: usize = 256;

// How many stretches there are.
const STRETCHES: usize = 1024;

// By what a doubled light times reach is divided to give its stretch: 2^54.
pub const STRETCH: u64 = 18014398509481984;

// The greatest guess: two codes follow it.
pub const GUESS_MOST: usize = 253;

// What tells the stretches of light apart: 2^63 - 1 over the last light and one.
pub fn reach(palette: &[u16]) -> u64
    requires { 256 ≤ length palette.now }
    ensures { (result ≡ reach_of palette.now) × (2 ^ 46 ≤ result) }
{
    9223372036854775807 / (u64::from(palette[255]) + 1)
}

// Twice the middle of the lights of codes k - 1 and k.
pub fn middle_of(palette: &[u16], k: usize) -> u64
    requires { (256 ≤ length palette.now) × (1 ≤ k) × (k ≤ 255) }
    ensures { (result ≡ middle (light_of palette.now) k) × (result ≤ 131070) }
{
    u64::from(palette[k - 1]) + u64::from(palette[k])
}

// The first stretch that begins above a middle.
fn stretch_of(middle: u64, reach: u64) -> usize
    requires { middle * reach < 2 ^ 64 }
    ensures { (result ≤ 1024) × (middle * reach ≤ result * 2 ^ 54) }
{
    (middle * reach / STRETCH) as usize + 1
}

// Stores guess g for sixteen stretches from a on: all at once, as their number is fixed.
fn fill_sixteen(palette: &mut [u16; PALETTE], a: usize, g: u16)
    requires { a ≤ 1056 }
    ensures { FilledFrom a g palette.old palette.new }
{
    for i in 0..16 {
        palette[FIRST_GUESS + a + i] = g;
    }
}

// The same for the stretches from a to before b, and for some past b. It stands apart, as few guesses come to it: the compiler makes four turns of
// its loop one, and to set that up takes longer than the stores of most.
#[inline(never)]
fn fill_more(palette: &mut [u16; PALETTE], a: usize, b: usize, g: u16)
    requires { (a ≤ b) × (b ≤ 1024) }
    ensures { FilledFrom a g palette.old palette.new }
{
    for k in 0..(b - a).div_ceil(16) {
        fill_sixteen(palette, a + 16 * k, g);
    }
}

// Stores guess g for the stretches from a to before b, and for some past b.
fn fill_stretches(palette: &mut [u16; PALETTE], a: usize, b: usize, g: u16)
    requires { (a ≤ 1024) × (b ≤ 1024) }
    ensures { FilledFrom a g palette.old palette.new }
{
    fill_sixteen(palette, a, g);
    if a + 16 < b {
        fill_more(palette, a + 16, b, g);
    }
}

// Stores a guess for each stretch: every second code, and 253, from the first stretch above its middle on.
fn fill_guesses(palette: &mut [u16; PALETTE], lights: &[u16])
    requires { Fit lights.now × Guesses (light_of lights.now) (reach_of lights.now) palette.old }
    ensures { Guesses (light_of lights.now) (reach_of lights.now) palette.new }
{
    let all = reach(lights);
    let mut a = 0;
    for k in 0..126 {
        let b = stretch_of(middle_of(lights, 2 * k + 2), all);
        fill_stretches(palette, a, b, 2 * k as u16);
        a = b;
    }
    let last = stretch_of(middle_of(lights, GUESS_MOST), all);
    fill_stretches(palette, a, last, 252);
    fill_stretches(palette, last, STRETCHES, GUESS_MOST as u16);
}

// Makes the palette of lights from zeros.
pub fn fill_palette(palette: &mut [u16; PALETTE], lights: &[u16])
    requires { Fit lights.now × (palette.old ≡ replicate palette_size 0) }
    ensures { Palette palette.new × (lights_in palette.new ≡ lights.now) }
{
    fill_guesses(palette, lights);
    for i in 0..256 {
        palette[i] = lights[i];
    }
}
