// Filled triangles: exactly two sides cross a row of pixels, since corners lie on pixel corners, and the row is drawn between them.
#![tactic(auto)]

pub mod side; // side.rt: a side, and where it stands in a row
pub mod row; // row.rt: a row between two sides

ghost use Rattle.std.specs.Prelude.{◌≡◌, ◌+◌, ◌-◌, ◌*◌, ◌≤◌, ◌<◌, ltb, length};
ghost use Rattle.page.specs.inner.Ink.{ink_of};
ghost use Rattle.page.specs.inner.Paint.{Lawful, DrawnIn};
ghost use Rattle.limits.specs.Limits.{shape_refusal};
ghost use Rattle.shapes.specs.declared.Shape.TheVariants.{Triangle as asTriangle};
ghost use Rattle.sides.specs.inner.Offsets.{at, row_d, Near, NearCorners};
ghost use Rattle.coverage.specs.Coverage.{drawn_d};
ghost use Rattle.coverage.specs.inner.OnPage.{shape_on};
ghost use Rattle.triangles.specs.inner.Side.{SideFit};
ghost use Rattle.triangles.specs.inner.Row.{between_on, beside_on, RowsDrawn, Crossed, Between};
ghost use Rattle.triangles.specs.inner.Order.{corners, rising, Sorted};

use page::{Ink, Palette, View, clamp_offset};
use row::Inks;
use shapes::{Corners, Point};
use side::Side;
use std::ops::Range;

// The side from the first corner to the last, and the ink of its shares; `right` tells whether the two others lie on its left, for the sake
// of speed alone.
#[derive(Drop)]
struct Long<I: Ink> {
    side: Side,
    ink: I,
    right: bool,
    ghost fit: { SideFit side },
    ghost whole: { I.whole ink ≡ side.d },
}

// Two corners in the order in which y rises.
fn rising(a: Point, b: Point) -> (Point, Point)
    ensures { result ≡ rising a b }
{
    if a.y <= b.y { (a, b) } else { (b, a) }
}

// The corners in that order.
fn sorted(c: Corners) -> (Point, Point, Point)
    requires { NearCorners c }
    ensures { Sorted c (corners result.0 result.1 result.2) }
{
    let (a, b) = rising(Point { x: c.x0, y: c.y0 }, Point { x: c.x1, y: c.y1 });
    let (b, c) = rising(b, Point { x: c.x2, y: c.y2 });
    let (a, b) = rising(a, b);
    (a, b, c)
}

// Whether corner b lies to the left of the side from a to c.
fn bends_left(a: Point, b: Point, c: Point) -> bool
    requires { NearCorners (corners a b c) × (a.y ≤ b.y) × (a.y ≤ c.y) }
    ensures { result ≡ ltb (b.x * (c.y - a.y) + a.x * (b.y - a.y)) (c.x * (b.y - a.y) + a.x * (c.y - a.y)) }
{
    let lower = b.y - a.y;
    let all = c.y - a.y;
    b.x * all + a.x * lower < c.x * lower + a.x * all
}

// Draws rows that both sides cross, s on the left of t. A call of it would be slower.
#[inline(always)]
fn draw_rows<I: Ink>(
    page: &mut [u8],
    inks: &Inks<I>,
    view: View,
    s: Side,
    t: Side,
    rows: Range<usize>,
) -> u64
    requires fit { Lawful view (length page.old) × SideFit s × SideFit t × (I.whole inks.now.first ≡ s.d) × (I.whole inks.now.second ≡ t.d) }
    requires crossed { Crossed view s rows.start rows.end × Crossed view t rows.start rows.end }
    ensures { RowsDrawn view (I.blends inks.now.both) (between_on s t) rows.start rows.end page.old page.new result }
{
    let mut touched: u64 = 0;
    for y in rows {
        let z = y as u64 + numbers::ORIGIN;
        touched += row::draw_row(page, inks, view, s.cut_at(z), t.cut_at(z), y);
    }
    touched
}

// Draws rows between the side from corner a up to corner b and the long one, which both cross them.
fn draw_half<P: Palette>(
    page: &mut [u8],
    palette: P,
    view: View,
    a: Point,
    b: Point,
    long: &Long<P::Ink>,
    level: u8,
    rows: Range<usize>,
) -> u64
    requires near { Lawful view (length page.old) × Near a.x a.y b.x b.y }
    requires inked { P.Ink.blends long.now.ink ≡ ink_of (P.lights palette) level long.now.side.d }
    requires crossed { Crossed view long.now.side rows.start rows.end × Between a.y b.y rows.start rows.end }
    ensures { RowsDrawn view (ink_of (P.lights palette) level (row_d (at a.x a.y) (at b.x b.y) * long.now.side.d)) (beside_on a.x a.y b.x b.y long.now.side) rows.start rows.end page.old page.new result }
{
    if rows.is_empty() {
        return 0;
    }
    let side = Side::new(a, b);
    let ink = palette.ink(level, side.d);
    let both = palette.ink(level, side.d * long.side.d);
    if long.right {
        let inks = Inks {
            first: ink,
            second: long.ink,
            both,
        };
        draw_rows(page, &inks, view, side, long.side, rows)
    } else {
        let inks = Inks {
            first: long.ink,
            second: ink,
            both,
        };
        draw_rows(page, &inks, view, long.side, side, rows)
    }
}

// Draws a triangle within the view's clip; hands back how many pixels it touched.
pub fn draw_triangle<P: Palette>(
    page: &mut [u8],
    palette: P,
    view: View,
    triangle: shapes::Triangle,
    level: u8,
) -> u64
    requires { Lawful view (length page.old) × (shape_refusal (asTriangle triangle) ≡ 0) }
    ensures { DrawnIn view (ink_of (P.lights palette) level (drawn_d (asTriangle triangle))) (shape_on (asTriangle triangle)) page.old page.new result }
{
    let (a, b, c) = sorted(Corners::from(triangle));
    let from = clamp_offset(view.y0, view.y1, a.y);
    let middle = clamp_offset(view.y0, view.y1, b.y);
    let end = clamp_offset(view.y0, view.y1, c.y);
    if end <= from {
        return 0;
    }
    let side = Side::new(a, c);
    let long = Long {
        side,
        ink: palette.ink(level, side.d),
        right: bends_left(a, b, c),
    };
    let lower = draw_half(page, palette, view, a, b, &long, level, from..middle);
    let upper = draw_half(page, palette, view, b, c, &long, level, middle..end);
    lower + upper
}
