// Inks in lights at even steps, whose codes are blended as they stand.
ghost use Rattle.std.specs.Prelude.{◌≡◌, ◌^◌, ◌≤◌, ◌<◌};
ghost use Rattle.lights.specs.Lights.{light_of};
ghost use Rattle.lights.specs.inner.Fit.{Fit, EvenSteps};
ghost use Rattle.blending.specs.inner.Quotient.{Reciprocal};
ghost use Rattle.page.specs.inner.Ink.{chord_whole, ink_of, ink_covers};

use crate::ink::{Ink, Palette};
use blending::even::{blend_code, blend_code_512, reciprocal};

#[derive(Clone, Copy)]
pub struct EvenLights<'a> {
    pub lights: &'a [u16],
    pub ghost fit: { Fit lights.now },
    pub ghost even: { EvenSteps (light_of lights.now) },
}

// The ink of a level over d; m is the reciprocal of d.
#[derive(Clone, Copy)]
pub struct EvenInk<'a> {
    pub of: EvenLights<'a>,
    pub level: u8,
    pub d: u64,
    pub m: u64,
    pub ghost byte: { level ≤ 255 },
    pub ghost some: { (0 < d) × (d ≤ 2 ^ 30) },
    pub ghost scale: { Reciprocal d m },
}

impl<'a> Ink for EvenInk<'a> {
    ghost blends = { λ i. ink_of i.of.lights.now i.level i.d };

    ghost whole = { λ i. i.d };

    ghost code = { λ i. i.level };

    fn over(self, u: u8, n: u64) -> u8 {
        blend_code(u, self.level, n, self.d, self.m)
    }

    fn level(self) -> u8 {
        self.level
    }

    ghost covers = { λ i. ink_covers i.of.lights.now i.of.fit i.level i.d i.byte i.some.0 };

    ghost some = { λ i. i.some };
}

// The ink of a level over 512.
#[derive(Clone, Copy)]
pub struct EvenChordInk<'a> {
    pub of: EvenLights<'a>,
    pub level: u8,
    pub ghost byte: { level ≤ 255 },
}

impl<'a> Ink for EvenChordInk<'a> {
    ghost blends = { λ i. ink_of i.of.lights.now i.level 512 };

    ghost whole = { λ i. 512 };

    ghost code = { λ i. i.level };

    fn over(self, u: u8, n: u64) -> u8 {
        blend_code_512(u, self.level, n)
    }

    fn level(self) -> u8 {
        self.level
    }

    ghost covers = { λ i. ink_covers i.of.lights.now i.of.fit i.level 512 i.byte chord_whole.0 };

    ghost some = { λ i. chord_whole };
}

impl<'a> Palette for EvenLights<'a> {
    type Ink = EvenInk<'a>;

    type ChordInk = EvenChordInk<'a>;

    ghost lights = { λ p. p.lights.now };

    fn ink(self, level: u8, d: u64) -> EvenInk<'a> {
        EvenInk {
            of: self,
            level,
            d,
            m: reciprocal(d),
        }
    }

    fn chord_ink(self, level: u8) -> EvenChordInk<'a> {
        EvenChordInk { of: self, level }
    }
}
