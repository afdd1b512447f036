// The numbers of C, 32 bits wide, as the library takes them. What its 16 bits do not hold becomes a number that it refuses, so that nothing is narrowed in silence.
#![tactic(auto)]

ghost use Rattle.std.specs.Prelude.{◌≡◌, ◌<◌, MatchOption};
ghost use Rattle.format.specs.Kind.{kind_number};
ghost use Rattle.arguments.specs.Taken.{coordinate_of, unsigned_of, edge_of, measure_of, basis_taken, basis_given, clip_of, line_of, disc_of, ring_of, triangle_of, taken_of};

use format::Kind;
use shapes::{Basis, Clip, Disc, Line, Ring, Shape, Triangle};

// A shape: its kind byte in a list, and its numbers in the order of the record's fields. Numbers past those that the kind has are ignored.
#[repr(C)]
#[derive(Clone, Copy)]
pub struct GivenShape {
    pub kind: u32,
    pub numbers: [i32; 6],
}

// What a record is read and written against: the version of its list, W and H.
#[repr(C)]
#[derive(Clone, Copy)]
pub struct GivenBasis {
    pub version: u32,
    pub w: u32,
    pub h: u32,
}

#[repr(C)]
#[derive(Clone, Copy)]
pub struct GivenClip {
    pub x0: u32,
    pub y0: u32,
    pub x1: u32,
    pub y1: u32,
}

// A coordinate of a shape or a pixel.
#[tactic(auto, unfolding(crate::specs::Taken::coordinate_of))]
pub fn coordinate(z: i32) -> i16
    ensures { result ≡ coordinate_of z }
{
    i16::try_from(z).unwrap_or(i16::MAX)
}

// A version, W or H.
#[tactic(auto, unfolding(crate::specs::Taken::unsigned_of))]
pub fn unsigned(n: u32) -> u16
    ensures { result ≡ unsigned_of n }
{
    u16::try_from(n).unwrap_or(0)
}

// A number of a clip.
#[tactic(auto, unfolding(crate::specs::Taken::edge_of))]
fn edge(n: u32) -> u16
    ensures { result ≡ edge_of n }
{
    u16::try_from(n).unwrap_or(u16::MAX)
}

// A radius or a ring's width, which C gives with a sign.
#[tactic(auto, unfolding(crate::specs::Taken::measure_of, crate::specs::Taken::edge_of))]
fn measure(z: i32) -> u16
    ensures { result ≡ measure_of z }
{
    u16::try_from(z.max(0)).unwrap_or(u16::MAX)
}

impl From<GivenBasis> for Basis {
    ghost from_gives = { λ given basis. basis ≡ basis_taken given };

    fn from(given: GivenBasis) -> Basis {
        Basis {
            version: unsigned(given.version),
            w: unsigned(given.w),
            h: unsigned(given.h),
        }
    }
}

impl From<Basis> for GivenBasis {
    ghost from_gives = { λ basis given. given ≡ basis_given basis };

    fn from(basis: Basis) -> GivenBasis {
        GivenBasis {
            version: basis.version.into(),
            w: basis.w.into(),
            h: basis.h.into(),
        }
    }
}

impl From<GivenClip> for Clip {
    ghost from_gives = { λ given clip. clip ≡ clip_of given };

    #[tactic(auto, unfolding(crate::specs::Taken::clip_of))]
    fn from(given: GivenClip) -> Clip {
        Clip {
            x0: edge(given.x0),
            y0: edge(given.y0),
            x1: edge(given.x1),
            y1: edge(given.y1),
        }
    }
}

impl GivenShape {
    // The kind, or none where there is none of the number.
    pub fn kind(self) -> Option<Kind>
        ensures { MatchOption result (10 < self.kind) (λ kind. kind_number kind ≡ self.kind) }
    {
        let number = u8::try_from(self.kind).ok()?;
        Kind::try_from(number).ok()
    }

    // Each shape by its numbers.
    pub fn line(self, exact: bool) -> Line
        ensures { result ≡ line_of exact self.numbers }
    {
        let [x0, y0, x1, y1, ..] = self.numbers;
        Line {
            exact,
            x0: coordinate(x0),
            y0: coordinate(y0),
            x1: coordinate(x1),
            y1: coordinate(y1),
        }
    }

    pub fn disc(self, big: bool) -> Disc
        ensures { result ≡ disc_of big self.numbers }
    {
        let [x, y, radius, ..] = self.numbers;
        Disc {
            x: coordinate(x),
            y: coordinate(y),
            radius: measure(radius),
            big,
        }
    }

    pub fn ring(self, big: bool) -> Ring
        ensures { result ≡ ring_of big self.numbers }
    {
        let [x, y, radius, width, ..] = self.numbers;
        Ring {
            x: coordinate(x),
            y: coordinate(y),
            radius: measure(radius),
            width: measure(width),
            big,
        }
    }

    pub fn triangle(self) -> Triangle
        ensures { result ≡ triangle_of self.numbers }
    {
        let [x0, y0, x1, y1, x2, y2] = self.numbers;
        Triangle {
            x0: coordinate(x0),
            y0: coordinate(y0),
            x1: coordinate(x1),
            y1: coordinate(y1),
            x2: coordinate(x2),
            y2: coordinate(y2),
        }
    }
}

// The shape of the given numbers, or none where there is none of the kind.
#[tactic(auto, unfolding(crate::specs::Taken::taken_of))]
pub fn taken_of(given: GivenShape) -> Option<Shape>
    ensures { result ≡ taken_of given }
{
    match given.kind()? {
        Kind::ExactLine => Some(Shape::Line(given.line(true))),
        Kind::ApproximateLine => Some(Shape::Line(given.line(false))),
        Kind::Disc => Some(Shape::Disc(given.disc(false))),
        Kind::BigDisc => Some(Shape::Disc(given.disc(true))),
        Kind::Ring => Some(Shape::Ring(given.ring(false))),
        Kind::BigRing => Some(Shape::Ring(given.ring(true))),
        Kind::Triangle => Some(Shape::Triangle(given.triangle())),
        Kind::End | Kind::Clip | Kind::Level | Kind::Player => None,
    }
}
