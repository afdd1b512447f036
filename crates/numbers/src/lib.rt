// Whole-number arithmetic that the other crates share.
#![tactic(auto)]

ghost use Rattle.std.specs.Prelude.{◌≡◌};
ghost use Rattle.numbers.specs.Coordinate.{in_range};
ghost use Rattle.numbers.specs.inner.Offset.{offset_of};

// The offset of coordinate 0.
pub const ORIGIN: u64 = 4096;

// The greatest offset, that of 4,095.
pub const OFFSET_MOST: u64 = 8191;

// A coverage of n over d.
#[derive(Clone, Copy, Debug, PartialEq, Eq)]
pub struct Ratio {
    pub n: u64,
    pub d: u64,
}

// Whether a coordinate is from -4,096 to 4,095.
fn in_range(c: i16) -> bool
    ensures { result ≡ in_range c }
{
    (-4096..=4095).contains(&c)
}

// The coordinate counted from -4,096, and one above the greatest offset for a number out of range: the geometry is unsigned from here on.
// An Option is no plainer: a shape is placed before it is tried, and a line would be four of them.
pub fn offset(c: i16) -> u64
    ensures { result ≡ offset_of c }
{
    if in_range(c) {
        (c as i64 + ORIGIN as i64) as u64
    } else {
        OFFSET_MOST + 1
    }
}
