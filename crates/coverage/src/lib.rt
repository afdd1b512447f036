// The coverage of a pixel by a shape.
#![tactic(auto)]

ghost use Rattle.std.specs.Prelude.{◌≡◌, true, cond};
ghost use Rattle.numbers.specs.Coordinate.{in_range};
ghost use Rattle.limits.specs.Limits.{shape_refusal};
ghost use Rattle.limits.specs.Refusal.{told, numbered};
ghost use Rattle.shapes.specs.declared.Shape.TheVariants.{Line as asLine, Disc as asDisc, Ring as asRing};
ghost use Rattle.coverage.specs.Coverage.{query_refusal, ratio_of, queried};

use limits::{RADIUS_MOST, Refusal, check_shape};
use numbers::OFFSET_MOST;
pub use numbers::Ratio;
use shapes::{Disc, Line, Point, Ring, Shape};
use sides::triangle_cover;

// A pixel out of range has the refusal of a shape out of range, which is tried first.
fn check_query(shape: Shape, x: i16, y: i16) -> Result<(), Refusal>
    ensures { told result ≡ query_refusal shape x y }
{
    let p = Point::new(x, y);
    if OFFSET_MOST < p.x || OFFSET_MOST < p.y {
        return Err(Refusal::Range);
    }
    check_shape(shape, RADIUS_MOST)
}

// A pixel with x and y exchanged where y is the longer.
fn turned(steep: bool, p: Point) -> Point
    ensures { (result.x ≡ cond steep p.y p.x) × (result.y ≡ cond steep p.x p.y) }
{
    if steep { Point { x: p.y, y: p.x } } else { p }
}

// The coverage of a pixel by a line.
fn line_ratio(line: Line, x: i16, y: i16) -> Ratio
    requires { (shape_refusal (asLine line) ≡ 0) × (in_range x ≡ true) × (in_range y ≡ true) }
    ensures { result ≡ ratio_of (asLine line) x y }
{
    let f = bands::frame_of(line);
    let d = bands::whole_of(line.exact, f.l, f.s);
    let p = Point::new(x, y);
    let a = turned(f.steep, p);
    if !(f.x..f.x + f.l).contains(&a.x) {
        return Ratio { n: 0, d };
    }
    let c = bands::crossing_at(f.l, f.s, a.x - f.x);
    let rows = bands::rows_of(line.exact, f.l, f.s, c.r, d);
    let n = rows.at(f.row(a.y), bands::ROW_ORIGIN + c.q);
    Ratio { n, d }
}

// The coverage of a pixel by a disc.
fn disc_ratio(disc: Disc, x: i16, y: i16) -> Ratio
    requires { (shape_refusal (asDisc disc) ≡ 0) × (in_range x ≡ true) × (in_range y ≡ true) }
    ensures { result ≡ ratio_of (asDisc disc) x y }
{
    let c = disc.centre();
    let p = Point::new(x, y);
    let a = chords::apart_of(c.x, p.x);
    let b = chords::apart_of(c.y, p.y);
    let n = chords::chords_of(disc.radius as u64, a, b);
    Ratio { n, d: 512 }
}

// The coverage of a pixel by a ring.
fn ring_ratio(ring: Ring, x: i16, y: i16) -> Ratio
    requires { (shape_refusal (asRing ring) ≡ 0) × (in_range x ≡ true) × (in_range y ≡ true) }
    ensures { result ≡ ratio_of (asRing ring) x y }
{
    let c = ring.centre();
    let p = Point::new(x, y);
    let a = chords::apart_of(c.x, p.x);
    let b = chords::apart_of(c.y, p.y);
    let outer = chords::chords_of(ring.radius as u64, a, b);
    let inner = chords::chords_of((ring.radius - ring.width) as u64, a, b);
    Ratio {
        n: outer - inner,
        d: 512,
    }
}

// The coverage of pixel (x, y) by a shape, n and d as its rule gives them.
#[tactic(auto, unfolding(crate::specs::Coverage::rules_of))]
pub fn coverage(shape: Shape, x: i16, y: i16) -> Result<Ratio, Refusal>
    ensures { numbered result ≡ queried shape x y }
{
    check_query(shape, x, y)?;
    match shape {
        Shape::Line(line) => Ok(line_ratio(line, x, y)),
        Shape::Disc(disc) => Ok(disc_ratio(disc, x, y)),
        Shape::Ring(ring) => Ok(ring_ratio(ring, x, y)),
        Shape::Triangle(triangle) => Ok(triangle_cover(triangle, x, y)),
    }
}
