// Blending in lights that are not at even steps: the code nearest in light, found from the guess of a palette.
ghost use Rattle.std.specs.Prelude.{◌≡◌, ◌+◌, ◌*◌, ◌^◌, ◌≤◌, ◌<◌, length};
ghost use Rattle.lights.specs.Lights.{light_of};
ghost use Rattle.blending.specs.Blend.{blended_light, blend};
ghost use Rattle.lights.specs.inner.Fit.{Rising};
ghost use Rattle.blending.specs.inner.Quotient.{Coverage};
ghost use Rattle.lights.specs.inner.Palette.{middle, lights_in, Palette};
ghost use Rattle.blending.specs.inner.Search.{Between, AtMost, NextTwo, NearGuess};
ghost use Rattle.blending.specs.inner.Scale.{Scaled};

use lights::palette::{FIRST_GUESS, GUESS_MOST, PALETTE, STRETCH, middle_of, reach};

// 1 where y is at most x, else 0: a number, as a branch that lights cannot make likely either way would cost more.
fn at_most(y: u64, x: u64) -> usize
    ensures { AtMost y x result × (result ≤ 1) }
{
    usize::from(y <= x)
}

// Middle k times d.
fn middle_over(palette: &[u16], k: usize, d: u64) -> u64
    requires { (256 ≤ length palette.now) × (1 ≤ k) × (k ≤ 255) × (d ≤ 2 ^ 30) }
    ensures { (result ≡ middle (light_of palette.now) k * d) × (result < 2 ^ 63) }
{
    middle_of(palette, k) * d
}

// Of middles low and low + 2 step, between which x over d lies, moves one to the middle of both.
fn look(palette: &[u16], x: u64, d: u64, low: usize, step: usize) -> usize
    requires in_bounds { (256 ≤ length palette.now) × (d ≤ 2 ^ 30) × (x < 2 ^ 63) × (1 ≤ step) × (low + 2 * step ≤ 256) }
    requires between { Between (light_of palette.now) x d low (low + 2 * step) }
    ensures { Between (light_of palette.now) x d result (result + step) × (result + step ≤ 256) }
{
    low + step * at_most(middle_over(palette, low + step, d), x)
}

// The code of x over d, by halving.
fn search(palette: &[u16], x: u64, d: u64) -> u8
    requires in_bounds { (256 ≤ length palette.now) × (d ≤ 2 ^ 30) × (x < 2 ^ 63) }
    requires between { Between (light_of palette.now) x d 0 256 }
    ensures { Between (light_of palette.now) x d result (result + 1) }
{
    let a = look(palette, x, d, 0, 128);
    let b = look(palette, x, d, a, 64);
    let c = look(palette, x, d, b, 32);
    let e = look(palette, x, d, c, 16);
    let f = look(palette, x, d, e, 8);
    let g = look(palette, x, d, f, 4);
    let h = look(palette, x, d, g, 2);
    look(palette, x, d, h, 1) as u8
}

// How many of the two middles after code a, whose own is at most x over d, are at most that.
fn next_two(palette: &[u16], a: usize, x: u64, d: u64) -> usize
    requires in_bounds { (256 ≤ length palette.now) × (a ≤ 253) × (d ≤ 2 ^ 30) × (x < 2 ^ 63) }
    requires rising { Rising (light_of palette.now) × (middle (light_of palette.now) a * d ≤ x) }
    ensures { NextTwo (light_of palette.now) x d a result }
{
    at_most(middle_over(palette, a + 1, d), x) + at_most(middle_over(palette, a + 2, d), x)
}

// The code of x over d: guess a, which is not above it, or one of the two after it; none where x over d is past those too.
fn near_guess(palette: &[u16], a: usize, x: u64, d: u64) -> Option<usize>
    requires in_bounds { (256 ≤ length palette.now) × (a ≤ 253) × (d ≤ 2 ^ 30) × (x < 2 ^ 63) }
    requires rising { Rising (light_of palette.now) × (middle (light_of palette.now) a * d ≤ x) × Between (light_of palette.now) x d 0 256 }
    ensures { NearGuess (light_of palette.now) x d a result }
{
    let c = a + next_two(palette, a, x, d);
    if a == GUESS_MOST || x < middle_over(palette, a + 3, d) {
        Some(c)
    } else {
        None
    }
}

// The code of x over d, which is past the two after guess a: lights may lie close there, so that the next ones are tried before all are.
fn beyond_guess(palette: &[u16], a: usize, x: u64, d: u64) -> u8
    requires in_bounds { (256 ≤ length palette.now) × (a ≤ 252) × (d ≤ 2 ^ 30) × (x < 2 ^ 63) }
    requires rising { Rising (light_of palette.now) × (middle (light_of palette.now) (a + 3) * d ≤ x) × Between (light_of palette.now) x d 0 256 }
    ensures { Between (light_of palette.now) x d result (result + 1) }
{
    if a <= GUESS_MOST - 3 {
        if let Some(code) = near_guess(palette, a + 3, x, d) {
            return code as u8;
        }
    }
    search(palette, x, d)
}

// The code of x over d, from guess a, which is not above it.
fn code_from(palette: &[u16], a: usize, x: u64, d: u64) -> u8
    requires in_bounds { (256 ≤ length palette.now) × (a ≤ 253) × (d ≤ 2 ^ 30) × (x < 2 ^ 63) }
    requires rising { Rising (light_of palette.now) × (middle (light_of palette.now) a * d ≤ x) × Between (light_of palette.now) x d 0 256 }
    ensures { Between (light_of palette.now) x d result (result + 1) }
{
    match near_guess(palette, a, x, d) {
        Some(code) => code as u8,
        None => beyond_guess(palette, a, x, d),
    }
}

// Twice the blended light times d.
fn doubled(palette: &[u16], u: u8, v: u8, n: u64, d: u64) -> u64
    requires { (256 ≤ length palette.now) × Coverage n d }
    ensures { (result ≡ 2 * blended_light (light_of palette.now) u v n d) × (result ≤ 131070 * d) }
{
    let old = u64::from(palette[usize::from(u)]);
    let new = u64::from(palette[usize::from(v)]);
    2 * (old * (d - n) + new * n)
}

// The stretch of light in which x over d lies, by the scale m of d.
fn stretch_at(x: u64, m: u64) -> usize
    requires { x * m < 2 ^ 64 }
    ensures { (result < 1024) × (result * 2 ^ 54 ≤ x * m) }
{
    (x * m / STRETCH) as usize
}

// What tells the stretches of the doubled lights times d apart.
pub fn scale_of(palette: &[u16; PALETTE], d: u64) -> u64
    requires { Palette palette.now × (0 < d) × (d ≤ 2 ^ 30) }
    ensures { Scaled palette.now d result }
{
    reach(palette) / d
}

// Level v over byte u at coverage n over d, by the scale of d.
pub fn blend_uneven(palette: &[u16; PALETTE], u: u8, v: u8, n: u64, d: u64, m: u64) -> u8
    requires { Palette palette.now × Coverage n d × Scaled palette.now d m }
    ensures { result ≡ blend (lights_in palette.now) u v n d }
{
    let x = doubled(palette, u, v, n, d);
    let guess = palette[FIRST_GUESS + stretch_at(x, m)];
    code_from(palette, guess as usize, x, d)
}

// Level v over byte u at coverage n over 512: middles are whole numbers, so that what is left of x over 512 does not count.
pub fn blend_uneven_512(palette: &[u16; PALETTE], u: u8, v: u8, n: u64, m: u64) -> u8
    requires { Palette palette.now × (n ≤ 512) × Scaled palette.now 512 m }
    ensures { result ≡ blend (lights_in palette.now) u v n 512 }
{
    let x = doubled(palette, u, v, n, 512);
    let guess = palette[FIRST_GUESS + stretch_at(x, m)];
    code_from(palette, guess as usize, x / 512, 1)
}
