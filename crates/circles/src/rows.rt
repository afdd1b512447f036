// The rows of a ring within a clip, each drawn in stretches: edges are blended pixel by pixel, what is whole is filled, a hole is left alone.
ghost use Rattle.std.specs.Prelude.{◌≡◌, ℕ, ◌+◌, ◌≤◌, ◌<◌, length};
ghost use Rattle.numbers.specs.inner.Offset.{origin, offset_most};
ghost use Rattle.limits.specs.Limits.{radius_most};
ghost use Rattle.numbers.specs.Sum.{sum_to};
ghost use Rattle.page.specs.Page.{over};
ghost use Rattle.page.specs.inner.Paint.{dot, touch};
ghost use Rattle.chords.specs.inner.Circle.{apart};
ghost use Rattle.rings.specs.inner.Circles.{Measured};
ghost use Rattle.rings.specs.inner.Placed.{Placed, RingDrawn};
ghost use Rattle.circles.specs.inner.Row.{left_of, right_of, Band, in_stretch};

use super::encloses;
use chords::apart_of;
use mirrored::draw_sides;
use numbers::ORIGIN;
use page::{Ink, View, clamp_offset, fill_row};
use rings::{Circles, Ring, Widths};

// The first column of the clip that is nearer than d to the centre, and the first past those.
pub(crate) fn left_at(view: View, ring: Ring, d: u64) -> usize
    ensures { result ≡ left_of view ring d }
{
    clamp_offset(view.x0, view.x1, ring.cx.saturating_sub(d))
}

pub(crate) fn right_at(view: View, ring: Ring, d: u64) -> usize
    requires { (ring.cx ≤ offset_most) × (d ≤ radius_most) }
    ensures { result ≡ right_of view ring d }
{
    clamp_offset(view.x0, view.x1, ring.cx + d)
}

// Blends a stretch whose first pixel is in column x of the row at distance b; hands back how many pixels it touched.
fn blend_edge<I: Ink>(stretch: &mut [u8], ink: I, circles: &Circles, x: usize, b: u64) -> u64
    requires inked { (I.whole ink ≡ 512) × (b < circles.now.ring.radius) × (x + length stretch.old ≤ 1024) }
    requires by_index { (i : ℕ) → i < length stretch.old → apart circles.now.ring.cx (x + i + origin) ≤ radius_most }
    ensures stretch_after { stretch.new ≡ over (λ i. dot (I.blends ink) (in_stretch circles.now x b i)) stretch.old }
    ensures value { result ≡ sum_to (length stretch.old) (λ i. touch (in_stretch circles.now x b i)) }
{
    let mut touched: u64 = 0;
    for (i, u) in stretch.iter_mut().enumerate() {
        let a = apart_of(circles.ring.cx, (x + i) as u64 + ORIGIN);
        let n = circles.covered(a, b);
        *u = ink.over(*u, n);
        touched += page::touched(n);
    }
    touched
}

// Draws columns from to end of row y pixel by pixel. An edge that the clip leaves out, as most of a large ring are, costs a test. What a row is
// drawn by stands in line: a call would write its structs to memory in each row.
#[inline(always)]
fn draw_edge<I: Ink>(
    page: &mut [u8],
    ink: I,
    view: View,
    circles: &Circles,
    y: usize,
    from: usize,
    end: usize,
) -> u64
    requires ready { Placed view (length page.old) circles.now.ring × (I.whole ink ≡ 512) }
    requires y0_le_y { (view.y0 ≤ y) × (y < view.y1) × (view.x0 ≤ from) × (from ≤ end) × (end ≤ view.x1) }
    ensures { RingDrawn (I.blends ink) view circles.now from y end (y + 1) page.old page.new result }
{
    if end <= from {
        return 0;
    }
    let w = view.w;
    let a = y * w + from;
    let e = y * w + end;
    let b = apart_of(circles.ring.cy, y as u64 + ORIGIN);
    blend_edge(&mut page[a..e], ink, circles, from, b)
}

// Draws columns p to s of row y, of which q to r are whole.
#[inline(always)]
fn draw_band<I: Ink>(
    page: &mut [u8],
    ink: I,
    view: View,
    circles: &Circles,
    y: usize,
    p: usize,
    q: usize,
    r: usize,
    s: usize,
) -> u64
    requires ready { Placed view (length page.old) circles.now.ring × (I.whole ink ≡ 512) }
    requires band { Band circles.now view y p q r s }
    ensures { RingDrawn (I.blends ink) view circles.now p y s (y + 1) page.old page.new result }
{
    let left = draw_edge(page, ink, view, circles, y, p, q);
    let whole = fill_row(page, view, ink.level(), y, q, r);
    let right = draw_edge(page, ink, view, circles, y, r, s);
    left + whole + right
}

// Draws the columns of the clip in row y: one band, or a band on each side of the hole where the row meets the inner circle.
fn draw_bands<I: Ink>(
    page: &mut [u8],
    ink: I,
    view: View,
    circles: &Circles,
    row: Widths,
    y: usize,
) -> u64
    requires ready { Placed view (length page.old) circles.now.ring × (I.whole ink ≡ 512) × (view.y0 ≤ y) × (y < view.y1) }
    requires measured { Measured circles.now (apart circles.now.ring.cy (y + origin)) row }
    ensures { RingDrawn (I.blends ink) view circles.now view.x0 y view.x1 (y + 1) page.old page.new result }
{
    let ring = circles.ring;
    let p = left_at(view, ring, row.outer);
    let q = left_at(view, ring, row.whole);
    let r = right_at(view, ring, row.whole);
    let s = right_at(view, ring, row.outer);
    if row.inner == 0 {
        return draw_band(page, ink, view, circles, y, p, q, r, s);
    }
    let left_in = left_at(view, ring, row.inner);
    let hole_from = left_at(view, ring, row.hole);
    let hole_end = right_at(view, ring, row.hole);
    let right_in = right_at(view, ring, row.inner);
    let left = draw_band(page, ink, view, circles, y, p, q, left_in, hole_from);
    let right = draw_band(page, ink, view, circles, y, hole_end, right_in, r, s);
    left + right
}

// Draws the columns of the clip in row y, both sides at once where it has them whole.
fn draw_row<I: Ink>(page: &mut [u8], ink: I, view: View, circles: &Circles, y: usize) -> u64
    requires { Placed view (length page.old) circles.now.ring × (I.whole ink ≡ 512) × (view.y0 ≤ y) × (y < view.y1) }
    ensures { RingDrawn (I.blends ink) view circles.now view.x0 y view.x1 (y + 1) page.old page.new result }
{
    let b = apart_of(circles.ring.cy, y as u64 + ORIGIN);
    let row = circles.measure(b);
    if encloses(view.x0, view.x1, circles.ring.cx, row.outer) {
        return draw_sides(page, ink, view, circles, row, b, y);
    }
    draw_bands(page, ink, view, circles, row, y)
}

// Draws the rows of the clip.
pub(crate) fn draw_rows<I: Ink>(page: &mut [u8], ink: I, view: View, circles: &Circles) -> u64
    requires { Placed view (length page.old) circles.now.ring × (I.whole ink ≡ 512) }
    ensures { RingDrawn (I.blends ink) view circles.now view.x0 view.y0 view.x1 view.y1 page.old page.new result }
{
    let mut touched: u64 = 0;
    for y in view.y0..view.y1 {
        touched += draw_row(page, ink, view, circles, y);
    }
    touched
}
