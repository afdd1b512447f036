// The kinds of records, how many bytes each has, and which a version has; what a header tells.
#![tactic(auto)]

ghost use Rattle.std.specs.Prelude.{◌≡◌, length};
ghost use Rattle.shapes.specs.declared.Shape.TheVariants.{Line as line_shape, Disc as disc_shape, Ring as ring_shape};
ghost use Rattle.shapes.specs.declared.Record.TheVariants.{Setting as setting_record, Shape as shape_record};
ghost use Rattle.format.specs.Kind.{kind_number, Numbered};
ghost use Rattle.format.specs.Format.{kind_size, last_kind, kind_of, record_bytes, basis_of};

use shapes::{Basis, Disc, Line, Record, Ring, Setting, Shape};
use std::error::Error;
use std::fmt;

// How many bytes a header has.
pub const HEADER_SIZE: usize = 10;

// How many bytes a list may have.
pub const LIST_MOST: usize = 65536;

// How many bytes the array of a record or a header has; each fits.
pub const RECORD_MOST: usize = 13;

// What a header tells: the version of the list, W, H and the background.
#[derive(Clone, Copy, PartialEq, Eq)]
pub struct Header {
    pub version: u16,
    pub w: u16,
    pub h: u16,
    pub background: u8,
}

// What the records behind a header are read against.
impl From<Header> for Basis {
    ghost from_gives = { λ header basis. basis ≡ basis_of header };

    fn from(header: Header) -> Basis {
        Basis {
            version: header.version,
            w: header.w,
            h: header.h,
        }
    }
}

// The kinds of records, in the order of their numbers.
#[derive(Clone, Copy, Debug, PartialEq, Eq, PartialOrd, Ord)]
pub enum Kind {
    End,
    Clip,
    Level,
    ExactLine,
    ApproximateLine,
    Disc,
    Ring,
    Player,
    BigDisc,
    BigRing,
    Triangle,
}

// A byte that is the number of no kind.
#[derive(Clone, Copy, Debug, PartialEq, Eq)]
pub struct UnknownKind(pub u8);

impl fmt::Display for UnknownKind {
    fn fmt<W: fmt::Write>(&self, f: &mut fmt::Formatter<W>) -> fmt::Result {
        write!(f, "no kind of record has the number {}", self.0)
    }
}

impl Error for UnknownKind {}

impl From<Kind> for u8 {
    ghost from_gives = { λ kind number. number ≡ kind_number kind };

    fn from(kind: Kind) -> u8 {
        kind as u8
    }
}

impl TryFrom<u8> for Kind {
    type Error = UnknownKind;

    ghost try_from_gives = { Numbered };

    fn try_from(number: u8) -> Result<Self, UnknownKind> {
        match number {
            0 => Ok(Kind::End),
            1 => Ok(Kind::Clip),
            2 => Ok(Kind::Level),
            3 => Ok(Kind::ExactLine),
            4 => Ok(Kind::ApproximateLine),
            5 => Ok(Kind::Disc),
            6 => Ok(Kind::Ring),
            7 => Ok(Kind::Player),
            8 => Ok(Kind::BigDisc),
            9 => Ok(Kind::BigRing),
            10 => Ok(Kind::Triangle),
            _ => Err(UnknownKind(number)),
        }
    }
}

impl Kind {
    // How many bytes a record of this kind has.
    #[tactic(auto, unfolding(crate::specs::Format::kind_size))]
    pub fn size(self) -> usize
        ensures { result ≡ kind_size (kind_number self) }
    {
        match self {
            Kind::End => 1,
            Kind::Level | Kind::Player => 2,
            Kind::Disc => 6,
            Kind::Ring | Kind::BigDisc => 7,
            Kind::Clip | Kind::ExactLine | Kind::ApproximateLine | Kind::BigRing => 9,
            Kind::Triangle => 13,
        }
    }
}

// How many bytes a record of the kind of a number has, and 0 for an unknown kind: a walk over a list has the byte alone.
#[tactic(auto, using(crate::proofs::Bytes::unknown_kind_lem))]
pub fn kind_size(number: u8) -> usize
    ensures { result ≡ kind_size number }
{
    Kind::try_from(number).map_or(0, Kind::size)
}

// The last kind that a version has.
pub fn last_kind(version: u16) -> Kind
    ensures { kind_number result ≡ last_kind version }
{
    match version {
        1 => Kind::Ring,
        _ => Kind::Triangle,
    }
}

#[tactic(auto, unfolding(crate::specs::Format::kind_of))]
impl From<Line> for Kind {
    ghost from_gives = { λ line kind. kind_number kind ≡ kind_of (shape_record (line_shape line)) };

    fn from(line: Line) -> Kind {
        if line.exact {
            Kind::ExactLine
        } else {
            Kind::ApproximateLine
        }
    }
}

#[tactic(auto, unfolding(crate::specs::Format::kind_of))]
impl From<Disc> for Kind {
    ghost from_gives = { λ disc kind. kind_number kind ≡ kind_of (shape_record (disc_shape disc)) };

    fn from(disc: Disc) -> Kind {
        if disc.big { Kind::BigDisc } else { Kind::Disc }
    }
}

#[tactic(auto, unfolding(crate::specs::Format::kind_of))]
impl From<Ring> for Kind {
    ghost from_gives = { λ ring kind. kind_number kind ≡ kind_of (shape_record (ring_shape ring)) };

    fn from(ring: Ring) -> Kind {
        if ring.big { Kind::BigRing } else { Kind::Ring }
    }
}

#[tactic(auto, unfolding(crate::specs::Format::kind_of))]
impl From<Shape> for Kind {
    ghost from_gives = { λ shape kind. kind_number kind ≡ kind_of (shape_record shape) };

    fn from(shape: Shape) -> Kind {
        match shape {
            Shape::Line(line) => Kind::from(line),
            Shape::Disc(disc) => Kind::from(disc),
            Shape::Ring(ring) => Kind::from(ring),
            Shape::Triangle(_) => Kind::Triangle,
        }
    }
}

#[tactic(auto, unfolding(crate::specs::Format::kind_of))]
impl From<Setting> for Kind {
    ghost from_gives = { λ setting kind. kind_number kind ≡ kind_of (setting_record setting) };

    fn from(setting: Setting) -> Kind {
        match setting {
            Setting::Clip(_) => Kind::Clip,
            Setting::Level(_) => Kind::Level,
            Setting::Player(_) => Kind::Player,
        }
    }
}

#[tactic(auto, unfolding(crate::specs::Format::kind_of))]
impl From<Record> for Kind {
    ghost from_gives = { λ rec kind. kind_number kind ≡ kind_of rec };

    fn from(rec: Record) -> Kind {
        match rec {
            Record::End => Kind::End,
            Record::Setting(setting) => Kind::from(setting),
            Record::Shape(shape) => Kind::from(shape),
        }
    }
}

// How many bytes a record has.
#[tactic(auto, using(crate::proofs::Bytes::record_size_lem))]
pub fn record_size(rec: Record) -> usize
    ensures { result ≡ length (record_bytes rec) }
{
    Kind::from(rec).size()
}
