// Inks in lights that are not at even steps, whose codes are found by their lights.
ghost use Rattle.std.specs.Prelude.{◌≡◌, ◌^◌, ◌≤◌, ◌<◌};
ghost use Rattle.lights.specs.inner.Palette as filled;
ghost use Rattle.lights.specs.inner.Palette.{lights_in};
ghost use Rattle.blending.specs.inner.Scale.{Scaled};
ghost use Rattle.page.specs.inner.Ink.{chord_whole, ink_of, palette_covers};

use crate::ink::{Ink, Palette};
use blending::uneven::{blend_uneven, blend_uneven_512, scale_of};
use lights::palette::PALETTE;

#[derive(Clone, Copy)]
pub struct UnevenLights<'a> {
    pub palette: &'a [u16; PALETTE],
    pub ghost filled: { filled.Palette palette.now },
}

// The ink of a level over d; m is the scale of d.
#[derive(Clone, Copy)]
pub struct UnevenInk<'a> {
    pub of: UnevenLights<'a>,
    pub level: u8,
    pub d: u64,
    pub m: u64,
    pub ghost byte: { level ≤ 255 },
    pub ghost some: { (0 < d) × (d ≤ 2 ^ 30) },
    pub ghost scale: { Scaled of.palette.now d m },
}

impl<'a> Ink for UnevenInk<'a> {
    ghost blends = { λ i. ink_of (lights_in i.of.palette.now) i.level i.d };

    ghost whole = { λ i. i.d };

    ghost code = { λ i. i.level };

    fn over(self, u: u8, n: u64) -> u8 {
        blend_uneven(self.of.palette, u, self.level, n, self.d, self.m)
    }

    fn level(self) -> u8 {
        self.level
    }

    ghost covers = { λ i. palette_covers i.of.palette.now i.of.filled i.level i.d i.byte i.some.0 };

    ghost some = { λ i. i.some };
}

// The ink of a level over 512; m is the scale of 512.
#[derive(Clone, Copy)]
pub struct UnevenChordInk<'a> {
    pub of: UnevenLights<'a>,
    pub level: u8,
    pub m: u64,
    pub ghost byte: { level ≤ 255 },
    pub ghost scale: { Scaled of.palette.now 512 m },
}

impl<'a> Ink for UnevenChordInk<'a> {
    ghost blends = { λ i. ink_of (lights_in i.of.palette.now) i.level 512 };

    ghost whole = { λ i. 512 };

    ghost code = { λ i. i.level };

    fn over(self, u: u8, n: u64) -> u8 {
        blend_uneven_512(self.of.palette, u, self.level, n, self.m)
    }

    fn level(self) -> u8 {
        self.level
    }

    ghost covers = { λ i. palette_covers i.of.palette.now i.of.filled i.level 512 i.byte chord_whole.0 };

    ghost some = { λ i. chord_whole };
}

impl<'a> Palette for UnevenLights<'a> {
    type Ink = UnevenInk<'a>;

    type ChordInk = UnevenChordInk<'a>;

    ghost lights = { λ p. lights_in p.palette.now };

    fn ink(self, level: u8, d: u64) -> UnevenInk<'a> {
        UnevenInk {
            of: self,
            level,
            d,
            m: scale_of(self.palette, d),
        }
    }

    fn chord_ink(self, level: u8) -> UnevenChordInk<'a> {
        UnevenChordInk {
            of: self,
            level,
            m: scale_of(self.palette, 512),
        }
    }
}
