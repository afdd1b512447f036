// A side of a triangle, and where it stands in a row. Corners, rows and columns are at offsets.
ghost use Rattle.std.specs.Prelude.{◌≡◌, ◌+◌, ◌-◌, ◌*◌, ◌^◌, ◌/◌, ◌≤◌, ◌<◌};
ghost use Rattle.numbers.specs.inner.Inverse.{Inverse};
ghost use Rattle.numbers.specs.inner.Offset.{offset_most};
ghost use Rattle.edges.specs.inner.Strip.{span_most, height_most};
ghost use Rattle.sides.specs.inner.Offsets.{Near};
ghost use Rattle.triangles.specs.inner.Side.{left_of, SideFit, SideIs, CutFit, CutOf};
ghost use Rattle.triangles.specs.inner.Row.{right_of, between_of};

use shapes::Point;

// A side that goes up h rows from row y on, and over them so many columns to the right, or to the left. In a row it stands between two
// places that are `right` + `left` apart, in units of which h make a column; `start` is the lower one in its first row. The inverse of h
// makes a quotient a product. Shares are over d.
#[derive(Clone, Copy)]
pub struct Side {
    pub y: u64,
    pub h: u64,
    pub right: u64,
    pub left: u64,
    pub start: u64,
    pub inverse: u64,
    pub d: u64,
}

// A side in one row: it stands between low and high, and leaves a pixel in part only in columns from `column` to before `end`.
#[derive(Clone, Copy)]
pub struct Cut {
    pub h: u64,
    pub low: u64,
    pub high: u64,
    pub column: u64,
    pub end: u64,
    pub d: u64,
}

// The least whole number above 2^32 over h.
fn inverse_of(h: u64) -> u64
    requires { 0 < h }
    ensures { Inverse (2 ^ 32) h result }
{
    4294967296 / h + 1
}

// p over h, by the inverse of h.
fn column_of(p: u64, h: u64, inverse: u64) -> u64
    requires { (0 < h) × (h ≤ span_most) × (p ≤ 2 * height_most) × Inverse (2 ^ 32) h inverse }
    ensures { result ≡ p / h }
{
    p * inverse / 4294967296
}

impl Side {
    // The side from corner a up to corner b.
    pub(crate) fn new(a: Point, b: Point) -> Side
        requires { Near a.x a.y b.x b.y × (a.y < b.y) }
        ensures { SideFit result × SideIs a.x a.y b.x b.y result × (0 < result.d) × (result.d ≤ 2 ^ 30) }
    {
        let h = b.y - a.y;
        let right = b.x.saturating_sub(a.x);
        let left = a.x.saturating_sub(b.x);
        Side {
            y: a.y,
            h,
            right,
            left,
            start: h * a.x - left,
            inverse: inverse_of(h),
            d: edges::whole_of(h, right + left),
        }
    }

    // The side in row y, which it crosses.
    pub(crate) fn cut_at(self, y: u64) -> Cut
        requires { SideFit self × (self.y ≤ y) × (y < self.y + self.h) }
        ensures { CutOf self y result }
    {
        let i = y - self.y;
        let low = self.start + i * self.right - i * self.left;
        let high = low + self.right + self.left;
        Cut {
            h: self.h,
            low,
            high,
            column: column_of(low, self.h, self.inverse),
            end: column_of(high + self.h - 1, self.h, self.inverse),
            d: self.d,
        }
    }
}

impl Cut {
    // What the cut has on its left in the pixel of offset z.
    pub(crate) fn left_of(self, z: u64) -> u64
        requires { CutFit self × (z ≤ offset_most) }
        ensures { (result ≡ left_of self z) × (result ≤ self.d) }
    {
        edges::under_at(self.h, self.low, self.high, z)
    }

    // What it has there on its right.
    pub(crate) fn right_of(self, z: u64) -> u64
        requires { CutFit self × (z ≤ offset_most) }
        ensures { (result ≡ right_of self z) × (result ≤ self.d) }
    {
        self.d - self.left_of(z)
    }

    // What lies there between it and another.
    pub(crate) fn between(self, b: Cut, z: u64) -> u64
        requires { CutFit self × CutFit b × (z ≤ offset_most) }
        ensures { (result ≡ between_of self b z) × (result ≤ self.d * b.d) }
    {
        (self.left_of(z) * b.d).abs_diff(b.left_of(z) * self.d)
    }
}
