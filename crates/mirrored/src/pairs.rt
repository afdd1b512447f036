// Pixels on both sides of the centre's column, blended distance by distance: those that mirror each other have one coverage.
ghost use Rattle.std.specs.Prelude.{◌≡◌, ◌+◌, ◌*◌, ◌≤◌, ◌<◌, length};
ghost use Rattle.numbers.specs.inner.Offset.{origin};
ghost use Rattle.blending.specs.inner.Quotient.{Coverage};
ghost use Rattle.page.specs.inner.Paint.{touch, Lawful, Drawn};
ghost use Rattle.chords.specs.inner.Circle.{apart};
ghost use Rattle.mirrored.specs.inner.Mirrored.{row_sides, Sides, Quarters, SidesDrawn, QuartersDrawn};

use numbers::ORIGIN;
use page::{Ink, View, put, touched};
use rings::{Circles, Ring};

// Blends the two pixels of row y at distance a from the centre's column, at coverage n.
fn pair<I: Ink>(page: &mut [u8], ink: I, view: View, ring: Ring, y: usize, a: u64, n: u64)
    requires { Lawful view (length page.old) × Sides view ring y (a + 1) × Coverage n (I.whole ink) }
    ensures { Drawn view.w view.h (I.blends ink) (row_sides ring (λ _ _. n) y a (a + 1)) page.old page.new (2 * touch n) }
{
    let c = y * view.w + (ring.cx - ORIGIN) as usize;
    let right = c + a as usize;
    let left = c - a as usize - 1;
    put(page, ink, right, n);
    put(page, ink, left, n);
}

// Blends what of row y, at distance b, lies from to end away from the centre's column; hands back how many pixels it touched.
pub(crate) fn sides<I: Ink>(
    page: &mut [u8],
    ink: I,
    view: View,
    circles: &Circles,
    b: u64,
    y: usize,
    from: u64,
    end: u64,
) -> u64
    requires ready { Lawful view (length page.old) × (I.whole ink ≡ 512) × Sides view circles.now.ring y end × (from ≤ end) }
    requires b_value { (b ≡ apart circles.now.ring.cy (y + origin)) × (b < circles.now.ring.radius) × (end ≤ circles.now.ring.radius) }
    ensures { SidesDrawn (I.blends ink) view circles.now y from end page.old page.new result }
{
    let mut touched: u64 = 0;
    for a in from..end {
        let n = circles.covered(a, b);
        pair(page, ink, view, circles.ring, y, a, n);
        touched += page::touched(n);
    }
    2 * touched
}

// Blends what of rows y and z, both at distance b, lies from to end away from the centre's column.
pub(crate) fn quarters<I: Ink>(
    page: &mut [u8],
    ink: I,
    view: View,
    circles: &Circles,
    b: u64,
    y: usize,
    z: usize,
    from: u64,
    end: u64,
) -> u64
    requires ready { Lawful view (length page.old) × (I.whole ink ≡ 512) × Quarters view circles.now.ring b y z end × (from ≤ end) }
    requires b_lt_radius { (b < circles.now.ring.radius) × (end ≤ circles.now.ring.radius) }
    ensures { QuartersDrawn (I.blends ink) view circles.now from b end (b + 1) page.old page.new result }
{
    let mut touched: u64 = 0;
    for a in from..end {
        let n = circles.covered(a, b);
        pair(page, ink, view, circles.ring, y, a, n);
        pair(page, ink, view, circles.ring, z, a, n);
        touched += page::touched(n);
    }
    4 * touched
}
