// The coverage of a ring by the distances from its centre, and where a row of it changes.
#![tactic(auto)]

ghost use Rattle.std.specs.Prelude.{◌≡◌, ℕ, ◌+◌, ◌*◌, ◌≤◌, ◌<◌, min, max, leb, length};
ghost use Rattle.limits.specs.Limits.{radius_most};
ghost use Rattle.chords.specs.Circle.{chords};
ghost use Rattle.rings.specs.inner.Heights.{at, Heights, Nested};

use chords::chord_of;

// The offsets of the centre, and the radii of the two circles. A disc has a hole of radius 0.
#[derive(Clone, Copy)]
pub struct Ring {
    pub cx: u64,
    pub cy: u64,
    pub radius: u64,
    pub hole: u64,
    ghost within: { hole ≤ radius },
    ghost most: { radius ≤ radius_most },
}

// A ring with the heights of its two circles, those at 0 to the radius at least.
#[derive(Clone, Copy)]
pub struct Circles<'a> {
    pub ring: Ring,
    pub outer: &'a [u32],
    pub inner: &'a [u32],
    ghost nested: { Nested (at outer.now) (at inner.now) ring.radius ring.hole },
    ghost outer_held: { ring.radius < length outer.now },
    ghost inner_held: { ring.hole < length inner.now },
}

// The distances at which a row changes: a hole, an edge, a whole part, an edge.
#[derive(Clone, Copy)]
pub struct Widths {
    pub hole: u64,
    pub inner: u64,
    pub whole: u64,
    pub outer: u64,
}

// The height at distance k.
fn height(hs: &[u32], k: u64) -> u64
    requires { k < length hs.now }
    ensures { result ≡ at hs.now k }
{
    hs[k as usize] as u64
}

// The coverage over 512 by a disc, at the distances a and b.
#[tactic(auto, unfolding(chords::specs::Circle::chords, chords::specs::Circle::chord))]
fn covered(hs: &[u32], a: u64, b: u64) -> u64
    requires { (a ≤ radius_most) × (b ≤ radius_most) × (b + 1 < length hs.now) }
    ensures { (result ≡ chords (at hs.now) a b) × (result ≤ 512) }
{
    let m = a.min(b);
    let n = a.max(b);
    chord_of(height(hs, m), n) + chord_of(height(hs, m + 1), n)
}

// Whether the pixel at the distances a and b is whole: the lower of its two heights tells.
fn is_whole(hs: &[u32], a: u64, b: u64) -> bool
    requires { (a ≤ radius_most) × (b ≤ radius_most) × (b + 1 < length hs.now) }
    ensures { result ≡ leb (256 * (max a b + 1)) (at hs.now (min a b + 1)) }
{
    256 * (a.max(b) + 1) <= height(hs, a.min(b) + 1)
}

// Whether nothing of it is covered: the higher one tells.
fn is_clear(hs: &[u32], a: u64, b: u64) -> bool
    requires { (a ≤ radius_most) × (b ≤ radius_most) × (b + 1 < length hs.now) }
    ensures { result ≡ leb (at hs.now (min a b)) (256 * max a b) }
{
    height(hs, a.min(b)) <= 256 * a.max(b)
}

// How many pixels of the row at distance b, from the centre outwards, are whole: a guess, lowered until it passes the test.
// Fewer would do: what is not known to be whole is blended.
fn whole_width(hs: &[u32], b: u64) -> u64
    requires { Heights (at hs.now) radius_most × (b ≤ radius_most) × (b + 1 < length hs.now) }
    ensures { (a : ℕ) → a < result → chords (at hs.now) a b ≡ 512 }
{
    let guess = height(hs, b + 1) / 256;
    for a in (0..guess).rev() {
        if is_whole(hs, a, b) {
            return a + 1;
        }
    }
    0
}

// From which pixel on none is covered: a guess, raised until it passes the test. A later one would do, up to the radius.
fn covered_width(hs: &[u32], radius: u64, b: u64) -> u64
    requires { Heights (at hs.now) radius × (radius ≤ radius_most) × (b ≤ radius_most) × (b + 1 < length hs.now) }
    ensures { (result ≤ radius) × ((a : ℕ) → result ≤ a → chords (at hs.now) a b ≡ 0) }
{
    let guess = (height(hs, b) + 255) / 256;
    for a in guess..radius {
        if is_clear(hs, a, b) {
            return a;
        }
    }
    radius
}

impl Circles<'_> {
    ghost use Rattle.rings.specs.inner.Circles.{cover, Measured};

    // The coverage over 512 at the distances a and b: a pixel past the hole needs no heights of the inner circle.
    #[tactic(auto, using(chords::proofs::Chord::chords_rise, crate::proofs::Chords::chords_far), unfolding(crate::specs::inner::Heights::between))]
    pub fn covered(&self, a: u64, b: u64) -> u64
        requires { (a ≤ radius_most) × (b < self.now.ring.radius) }
        ensures { (result ≡ cover self.now a b) × (result ≤ 512) }
    {
        let n = covered(self.outer, a, b);
        if a.max(b) < self.ring.hole {
            n - covered(self.inner, a, b)
        } else {
            n
        }
    }

    // Where the row at distance b changes. It stands in line: a call in each row would be slower.
    #[inline(always)]
    pub fn measure(&self, b: u64) -> Widths
        requires { b < self.now.ring.radius }
        ensures { Measured self.now b result }
    {
        let whole = whole_width(self.outer, b);
        let end = covered_width(self.outer, self.ring.radius, b);
        if self.ring.hole <= b {
            return Widths {
                hole: 0,
                inner: 0,
                whole,
                outer: end,
            };
        }
        let edge = end.min(covered_width(self.inner, self.ring.hole, b));
        Widths {
            hole: whole_width(self.inner, b),
            inner: edge,
            whole: edge.max(whole),
            outer: end,
        }
    }
}
