// Rows of a ring of which the clip has both sides: pixels that mirror each other about the centre are blended by one coverage.
#![tactic(auto)]

ghost use Rattle.std.specs.Prelude.{◌≡◌, ◌+◌, ◌≤◌, ◌<◌, length};
ghost use Rattle.numbers.specs.inner.Offset.{origin};
ghost use Rattle.page.specs.inner.Paint.{Lawful};
ghost use Rattle.chords.specs.inner.Circle.{apart};
ghost use Rattle.rings.specs.inner.Circles.{Measured};
ghost use Rattle.rings.specs.inner.Placed.{Placed, RingDrawn};
ghost use Rattle.mirrored.specs.inner.Mirrored.{Sides, Quarters, Enclosed, FilledSides, QuartersDrawn};

use numbers::ORIGIN;
use page::{Ink, View, fill_row};
use pairs::{quarters, sides};
use rings::{Circles, Ring, Widths};

mod pairs; // pairs.rt: pixels on both sides, blended distance by distance

// Gives what of row y lies from to end away from the centre's column the ink's level; hands back how many pixels it is.
fn fill_sides<I: Ink>(
    page: &mut [u8],
    ink: I,
    view: View,
    ring: Ring,
    y: usize,
    from: u64,
    end: u64,
) -> u64
    requires { Lawful view (length page.old) × Sides view ring y end × (from ≤ end) }
    ensures { FilledSides (I.blends ink) (I.whole ink) view ring y from end page.old page.new result }
{
    let v = ink.level();
    let c = (ring.cx - ORIGIN) as usize;
    let i = from as usize;
    let j = end as usize;
    if i == 0 {
        return fill_row(page, view, v, y, c - j, c + j);
    }
    let left = fill_row(page, view, v, y, c - j, c - i);
    let right = fill_row(page, view, v, y, c + i, c + j);
    left + right
}

// Draws row y, at distance b, of which the clip has all that is covered.
pub fn draw_sides<I: Ink>(
    page: &mut [u8],
    ink: I,
    view: View,
    circles: &Circles,
    row: Widths,
    b: u64,
    y: usize,
) -> u64
    requires ready { Placed view (length page.old) circles.now.ring × (I.whole ink ≡ 512) × Sides view circles.now.ring y row.outer }
    requires b_value { (b ≡ apart circles.now.ring.cy (y + origin)) × (b < circles.now.ring.radius) × Measured circles.now b row }
    ensures { RingDrawn (I.blends ink) view circles.now view.x0 y view.x1 (y + 1) page.old page.new result }
{
    let edge = sides(page, ink, view, circles, b, y, row.whole, row.outer);
    let solid = edge + fill_sides(page, ink, view, circles.ring, y, row.inner, row.whole);
    if row.inner == 0 {
        return solid;
    }
    solid + sides(page, ink, view, circles, b, y, row.hole, row.inner)
}

// Draws rows y and z, both at distance b, of which the clip has all that is covered.
fn draw_quarters<I: Ink>(
    page: &mut [u8],
    ink: I,
    view: View,
    circles: &Circles,
    row: Widths,
    b: u64,
    y: usize,
    z: usize,
) -> u64
    requires ready { Placed view (length page.old) circles.now.ring × (I.whole ink ≡ 512) × Quarters view circles.now.ring b y z row.outer }
    requires b_lt_radius { (b < circles.now.ring.radius) × Measured circles.now b row }
    ensures { QuartersDrawn (I.blends ink) view circles.now 0 b circles.now.ring.radius (b + 1) page.old page.new result }
{
    let edge = quarters(page, ink, view, circles, b, y, z, row.whole, row.outer);
    let lower = fill_sides(page, ink, view, circles.ring, y, row.inner, row.whole);
    let upper = fill_sides(page, ink, view, circles.ring, z, row.inner, row.whole);
    let solid = edge + lower + upper;
    if row.inner == 0 {
        return solid;
    }
    solid + quarters(page, ink, view, circles, b, y, z, row.hole, row.inner)
}

// Draws the two rows at distance b of a ring that the clip has whole.
fn draw_distance<I: Ink>(page: &mut [u8], ink: I, view: View, circles: &Circles, b: u64) -> u64
    requires { Placed view (length page.old) circles.now.ring × (I.whole ink ≡ 512) × Enclosed view circles.now.ring × (b < circles.now.ring.radius) }
    ensures { QuartersDrawn (I.blends ink) view circles.now 0 b circles.now.ring.radius (b + 1) page.old page.new result }
{
    let row = circles.measure(b);
    let y = (circles.ring.cy + b - ORIGIN) as usize;
    let z = (circles.ring.cy - b - 1 - ORIGIN) as usize;
    draw_quarters(page, ink, view, circles, row, b, y, z)
}

// Draws a ring that the clip has whole, from the centre outwards, two rows at a time.
pub fn draw_enclosed<I: Ink>(page: &mut [u8], ink: I, view: View, circles: &Circles) -> u64
    requires { Placed view (length page.old) circles.now.ring × (I.whole ink ≡ 512) × Enclosed view circles.now.ring }
    ensures { RingDrawn (I.blends ink) view circles.now view.x0 view.y0 view.x1 view.y1 page.old page.new result }
{
    let mut touched: u64 = 0;
    for b in 0..circles.ring.radius {
        touched += draw_distance(page, ink, view, circles, b);
    }
    touched
}
