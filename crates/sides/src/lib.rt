// A triangle's coverage of a pixel, from the areas under its sides. Corners and pixels are at offsets.
#![tactic(auto)]

ghost use Rattle.std.specs.Prelude.{◌≡◌, true, ◌*◌, ◌^◌, ◌≤◌, ◌<◌, pos, ◌*ℤ◌, unsigned_abs};
ghost use Rattle.numbers.specs.Coordinate.{in_range};
ghost use Rattle.numbers.specs.inner.Offset.{offset_most};
ghost use Rattle.edges.specs.inner.Strip.{whole_most};
ghost use Rattle.limits.specs.Limits.{shape_refusal};
ghost use Rattle.shapes.specs.declared.Shape.TheVariants.{Triangle as asTriangle};
ghost use Rattle.sides.specs.Triangle.{share_n, side_n, side_d, cover_of};
ghost use Rattle.sides.specs.inner.Offsets.{corner, offset_n, offset_d, Near, NearCorners, SideIs};

use numbers::Ratio;
use shapes::{Corners, Point, Triangle};

// What a side gives at a pixel, n over d: below 0 where it takes away.
#[derive(Clone, Copy)]
struct Given {
    n: i64,
    d: u64,
    ghost small: { (unsigned_abs n ≤ whole_most) × (d ≤ whole_most) },
}

impl Given {
    // Its part of n, over the product of what all three are over.
    fn over(self, q: Given, r: Given) -> i64
        ensures { (result ≡ self.n *ℤ pos (q.d * r.d)) × (unsigned_abs result ≤ 2 ^ 45) }
    {
        self.n * (q.d * r.d) as i64
    }
}

// A side from one corner to the next.
#[derive(Clone, Copy)]
struct Side {
    a: Point,
    b: Point,
    ghost near: { Near a.x a.y b.x b.y },
}

impl Side {
    fn between(a: Point, b: Point) -> Side
        requires { Near a.x a.y b.x b.y }
        ensures { (result.a ≡ a) × (result.b ≡ b) }
    {
        Side { a, b }
    }

    // The side that runs the other way.
    fn turned(self) -> Side
        ensures { (result.a ≡ self.b) × (result.b ≡ self.a) }
    {
        Side::between(self.b, self.a)
    }

    // What it has under it, running to the right, in a pixel of a column that it is over.
    fn share(self, pixel: Point) -> u64
        requires { (self.a.x ≤ pixel.x) × (pixel.x < self.b.x) × (pixel.y ≤ offset_most) }
        ensures { (result ≡ share_n (corner self.a) (corner self.b) (pos pixel.x) (pos pixel.y)) × (result ≤ whole_most) }
    {
        let i = pixel.x - self.a.x;
        let m = self.b.x - pixel.x - 1;
        let from = (m + 1) * self.a.y + i * self.b.y;
        let to = m * self.a.y + (i + 1) * self.b.y;
        edges::under_at(i + 1 + m, from, to, pixel.y)
    }

    // What it gives of a pixel: running to the right over the column it adds, running to the left it takes away.
    fn part(self, pixel: Point) -> i64
        requires { pixel.y ≤ offset_most }
        ensures { (result ≡ side_n (corner self.a) (corner self.b) (pos pixel.x) (pos pixel.y)) × (unsigned_abs result ≤ whole_most) }
    {
        match (self.a.x <= pixel.x, self.b.x <= pixel.x) {
            (true, false) => self.share(pixel) as i64,
            (false, true) => -(self.turned().share(pixel) as i64),
            (true, true) | (false, false) => 0,
        }
    }

    // What that is over, at every pixel.
    fn whole(self) -> u64
        ensures { (result ≡ side_d (corner self.a) (corner self.b)) × (result ≤ whole_most) }
    {
        edges::whole_of(self.a.x.abs_diff(self.b.x), self.a.y.abs_diff(self.b.y))
    }

    // The one over the other.
    fn given(self, pixel: Point) -> Given
        requires { pixel.y ≤ offset_most }
        ensures { SideIs self.a.x self.a.y self.b.x self.b.y pixel.x pixel.y result.n result.d }
    {
        Given {
            n: self.part(pixel),
            d: self.whole(),
        }
    }
}

// The coverage of a pixel, going round the corners.
fn cover_at(c: Corners, pixel: Point) -> Ratio
    requires { NearCorners c × (pixel.y ≤ offset_most) }
    ensures { (result.n ≡ offset_n c pixel.x pixel.y) × (result.d ≡ offset_d c) }
{
    let first = Point { x: c.x0, y: c.y0 };
    let second = Point { x: c.x1, y: c.y1 };
    let third = Point { x: c.x2, y: c.y2 };
    let p = Side::between(first, second).given(pixel);
    let q = Side::between(second, third).given(pixel);
    let r = Side::between(third, first).given(pixel);
    let n = p.over(q, r) + q.over(p, r) + r.over(p, q);
    Ratio {
        n: n.unsigned_abs(),
        d: p.d * q.d * r.d,
    }
}

// The coverage of pixel (x, y) by a triangle.
pub fn triangle_cover(triangle: Triangle, x: i16, y: i16) -> Ratio
    requires { (shape_refusal (asTriangle triangle) ≡ 0) × (in_range x ≡ true) × (in_range y ≡ true) }
    ensures { result ≡ cover_of triangle x y }
{
    cover_at(shapes::Corners::from(triangle), shapes::Point::new(x, y))
}
