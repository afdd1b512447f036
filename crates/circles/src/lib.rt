// Discs and rings on a lent page.
#![tactic(auto)]

ghost use Rattle.std.specs.Prelude.{◌≡◌, ◌&&◌, ◌+◌, ◌≤◌, leb, length};
ghost use Rattle.numbers.specs.inner.Offset.{origin, offset_most};
ghost use Rattle.limits.specs.Limits.{shape_refusal, radius_most};
ghost use Rattle.shapes.specs.declared.Shape.TheVariants.{Disc as asDisc, Ring as asRing};
ghost use Rattle.chords.specs.inner.Circle.{Held};
ghost use Rattle.coverage.specs.Coverage.{drawn_d};
ghost use Rattle.coverage.specs.inner.OnPage.{shape_on};
ghost use Rattle.page.specs.inner.Ink.{ink_of};
ghost use Rattle.page.specs.inner.Paint.{Lawful, DrawnIn};
ghost use Rattle.circles.specs.inner.Row.{boxed, covered_on};
ghost use Rattle.circles.specs.inner.Arrays.{Zeros};
ghost use Rattle.rings.specs.inner.Placed.{Placed, RingDrawn};

use chords::{HEIGHTS, heights};
use numbers::ORIGIN;
use page::{Ink, Palette, View, clamp_offset};
use rings::{Circles, Ring};
use rows::{left_at, right_at};

mod rows; // rows.rt: rows drawn in stretches

// Circles up to these radii hold their heights in shorter arrays.
const SMALL_MOST: u64 = 32;

const SMALL_HEIGHTS: usize = SMALL_MOST as usize + 2;

const MIDDLE_MOST: u64 = 255;

const MIDDLE_HEIGHTS: usize = MIDDLE_MOST as usize + 2;

const LARGE_MOST: u64 = 511;

const LARGE_HEIGHTS: usize = LARGE_MOST as usize + 2;

// Whether lo to hi has all that is nearer than d to an offset c.
pub(crate) fn encloses(lo: usize, hi: usize, c: u64, d: u64) -> bool
    requires { (lo ≤ 1024) × (hi ≤ 1024) × (c ≤ offset_most) × (d ≤ radius_most) }
    ensures { result ≡ (leb (lo + origin + d) c && leb (c + d) (hi + origin)) }
{
    lo as u64 + ORIGIN + d <= c && c + d <= hi as u64 + ORIGIN
}

// The part of the clip that the box of a ring meets.
fn box_of(view: View, ring: Ring) -> View
    requires { (ring.cx ≤ offset_most) × (ring.cy ≤ offset_most) }
    ensures { result ≡ boxed view ring }
{
    View {
        w: view.w,
        h: view.h,
        x0: left_at(view, ring, ring.radius),
        y0: clamp_offset(view.y0, view.y1, ring.cy.saturating_sub(ring.radius)),
        x1: right_at(view, ring, ring.radius),
        y1: clamp_offset(view.y0, view.y1, ring.cy + ring.radius),
    }
}

// Draws a ring whose heights are held, within a clip that is cut down to its box.
fn draw_held<I: Ink>(page: &mut [u8], ink: I, view: View, circles: &Circles) -> u64
    requires { Placed view (length page.old) circles.now.ring × (I.whole ink ≡ 512) }
    ensures { RingDrawn (I.blends ink) view circles.now view.x0 view.y0 view.x1 view.y1 page.old page.new result }
{
    let ring = circles.ring;
    if encloses(view.x0, view.x1, ring.cx, ring.radius)
        && encloses(view.y0, view.y1, ring.cy, ring.radius)
    {
        return mirrored::draw_enclosed(page, ink, view, circles);
    }
    rows::draw_rows(page, ink, view, circles)
}

// The heights of the hole; a disc has none, and zeros are those of radius 0.
fn hole_heights(hs: &mut [u32], radius: u64)
    requires { (radius ≤ radius_most) × Zeros hs.old radius }
    ensures { Held radius hs.old hs.new }
{
    if 0 < radius {
        heights(hs, radius);
    }
}

// Works out the heights of a ring in two lent arrays of zeros and draws it, within a clip that is cut down to its box.
fn draw_by_heights<I: Ink>(
    page: &mut [u8],
    ink: I,
    view: View,
    ring: Ring,
    outer: &mut [u32],
    inner: &mut [u32],
) -> u64
    requires placed { Placed view (length page.old) ring × (I.whole ink ≡ 512) }
    requires zeros { Zeros outer.old ring.radius × Zeros inner.old ring.hole }
    ensures { DrawnIn view (I.blends ink) (covered_on ring) page.old page.new result }
{
    heights(outer, ring.radius);
    hole_heights(inner, ring.hole);
    draw_held(page, ink, view, &Circles { ring, outer, inner })
}

// Draws a ring by heights in two arrays of N. Each size has a function of its own, so that large arrays do not grow the stack frame of small ones.
#[inline(never)]
fn draw_sized<I: Ink, const N: usize>(page: &mut [u8], ink: I, view: View, ring: Ring) -> u64
    requires { Placed view (length page.old) ring × (I.whole ink ≡ 512) × (ring.radius + 2 ≤ N) × (N ≤ radius_most + 2) }
    ensures { DrawnIn view (I.blends ink) (covered_on ring) page.old page.new result }
{
    let mut outer = [0u32; N];
    let mut inner = [0u32; N];
    draw_by_heights(page, ink, view, ring, &mut outer, &mut inner)
}

// The same in the smallest arrays that have room.
fn draw_boxed<I: Ink>(page: &mut [u8], ink: I, view: View, ring: Ring) -> u64
    requires { Placed view (length page.old) ring × (I.whole ink ≡ 512) }
    ensures { DrawnIn view (I.blends ink) (covered_on ring) page.old page.new result }
{
    if ring.radius <= SMALL_MOST {
        draw_sized::<I, SMALL_HEIGHTS>(page, ink, view, ring)
    } else if ring.radius <= MIDDLE_MOST {
        draw_sized::<I, MIDDLE_HEIGHTS>(page, ink, view, ring)
    } else if ring.radius <= LARGE_MOST {
        draw_sized::<I, LARGE_HEIGHTS>(page, ink, view, ring)
    } else {
        draw_sized::<I, HEIGHTS>(page, ink, view, ring)
    }
}

// Draws what lies between the circles of a ring within the view's clip. It stands in line, as a small ring feels each call.
#[inline(always)]
fn draw_between<I: Ink>(page: &mut [u8], ink: I, view: View, ring: Ring) -> u64
    requires { Lawful view (length page.old) × (I.whole ink ≡ 512) × (ring.cx ≤ offset_most) × (ring.cy ≤ offset_most) }
    ensures { DrawnIn view (I.blends ink) (covered_on ring) page.old page.new result }
{
    let part = box_of(view, ring);
    if part.x1 <= part.x0 || part.y1 <= part.y0 {
        return 0;
    }
    draw_boxed(page, ink, part, ring)
}

// Draws a disc within the view's clip; hands back how many pixels it touched.
pub fn draw_disc<P: Palette>(
    page: &mut [u8],
    palette: P,
    view: View,
    disc: shapes::Disc,
    level: u8,
) -> u64
    requires { Lawful view (length page.old) × (shape_refusal (asDisc disc) ≡ 0) }
    ensures { DrawnIn view (ink_of (P.lights palette) level (drawn_d (asDisc disc))) (shape_on (asDisc disc)) page.old page.new result }
{
    let c = disc.centre();
    let circle = Ring {
        cx: c.x,
        cy: c.y,
        radius: disc.radius as u64,
        hole: 0,
    };
    draw_between(page, palette.chord_ink(level), view, circle)
}

// Draws a ring within the view's clip; hands back how many pixels it touched.
pub fn draw_ring<P: Palette>(
    page: &mut [u8],
    palette: P,
    view: View,
    ring: shapes::Ring,
    level: u8,
) -> u64
    requires { Lawful view (length page.old) × (shape_refusal (asRing ring) ≡ 0) }
    ensures { DrawnIn view (ink_of (P.lights palette) level (drawn_d (asRing ring))) (shape_on (asRing ring)) page.old page.new result }
{
    let c = ring.centre();
    let between = Ring {
        cx: c.x,
        cy: c.y,
        radius: ring.radius as u64,
        hole: (ring.radius - ring.width) as u64,
    };
    draw_between(page, palette.chord_ink(level), view, between)
}
