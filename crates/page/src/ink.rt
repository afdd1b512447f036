// Inks: what a touched pixel's byte becomes. Lights are told apart once, by the type of their palette, and not at each pixel.
ghost use Rattle.std.specs.Prelude.{◌≡◌, ℕ, List, ◌^◌, ◌≤◌, ◌<◌};
ghost use Rattle.blending.specs.inner.Quotient.{Coverage};
ghost use Rattle.page.specs.inner.Ink.{ink_of};
ghost use Rattle.page.specs.inner.Paint.{dot};

// A level in some lights, at coverages over one d.
pub trait Ink: Copy {
    // what a byte becomes at a coverage n
    ghost blends: { Self → ℕ → ℕ → ℕ };

    // d, the whole coverage
    ghost whole: { Self → ℕ };

    ghost code: { Self → ℕ };

    // The byte u of a pixel of coverage n. No coverage keeps it, so that none is tested.
    fn over(self, u: u8, n: u64) -> u8
        requires { Coverage n (whole self) }
        ensures { result ≡ dot (blends self) n u };

    fn level(self) -> u8
        ensures { result ≡ code self };

    // whole coverage leaves the level
    ghost covers: { (ink : Self) (u : ℕ) → blends ink (whole ink) u ≡ code ink };

    ghost some: { (ink : Self) → (0 < whole ink) × (whole ink ≤ 2 ^ 30) };
}

// Lights made ready for blending.
pub trait Palette: Copy {
    type Ink: Ink;

    type ChordInk: Ink;

    ghost lights: { Self → List ℕ };

    // The ink of a level at coverages over d.
    fn ink(self, level: u8, d: u64) -> Self::Ink
        requires { (0 < d) × (d ≤ 2 ^ 30) }
        ensures blends { Self.Ink.blends result ≡ ink_of (lights self) level d }
        ensures whole { Self.Ink.whole result ≡ d };

    // The ink of a level at coverages by the chord rule, which are over 512.
    fn chord_ink(self, level: u8) -> Self::ChordInk
        ensures blends { Self.ChordInk.blends result ≡ ink_of (lights self) level 512 }
        ensures whole { Self.ChordInk.whole result ≡ 512 };
}
