// The bytes of headers and records.
#![tactic(auto, using(numbers::proofs::Standard::cast_unsigned_is), unfolding(format::specs::Format::kind_of, format::specs::Format::fields_of, format::specs::inner::Record::ShapeFits))]

ghost use Rattle.std.specs.Prelude.{◌≡◌, ◌∷◌, ◌++◌, ◌≤◌, [], cond};
ghost use Rattle.format.specs.Kind.{kind_number};
ghost use Rattle.format.specs.Format.{words, coordinates, measures, header_bytes, record_bytes};
ghost use Rattle.format.specs.inner.Record.{padded, CircleFits, ShapeFits, RecordFits};

use format::{Header, Kind, RECORD_MOST};
use shapes::{Disc, Line, Record, Ring, Setting, Shape, Triangle};

// A first byte and some words, the low byte of each first; zeros behind them.
#[tactic(auto, using(crate::proofs::Padding::word_more))]
fn words<const N: usize>(first: u8, numbers: [u16; N]) -> [u8; RECORD_MOST]
    requires { N ≤ 6 }
    ensures { result ≡ padded (first ∷ words numbers.entry) }
{
    let mut bytes = [0; RECORD_MOST];
    bytes[0] = first;
    for (i, number) in numbers.iter().enumerate() {
        let [low, high] = number.to_le_bytes();
        bytes[2 * i + 1] = low;
        bytes[2 * i + 2] = high;
    }
    bytes
}

// A first byte and some coordinates as words.
fn coordinates<const N: usize>(first: u8, numbers: [i16; N]) -> [u8; RECORD_MOST]
    requires { N ≤ 6 }
    ensures { result ≡ padded (first ∷ coordinates numbers.entry) }
{
    words(first, numbers.map(i16::cast_unsigned))
}

fn setting_bytes(setting: Setting) -> [u8; RECORD_MOST]
    ensures { result ≡ padded (record_bytes (Record.Setting setting)) }
{
    match setting {
        Setting::Clip(clip) => words(Kind::Clip.into(), [clip.x0, clip.y0, clip.x1, clip.y1]),
        Setting::Level(level) => words(Kind::Level.into(), [level.into()]),
        Setting::Player(player) => words(Kind::Player.into(), [player.into()]),
    }
}

fn line_bytes(line: Line) -> [u8; RECORD_MOST]
    ensures { result ≡ padded (record_bytes (Record.Shape (Shape.Line line))) }
{
    coordinates(
        Kind::from(line).into(),
        [line.x0, line.y0, line.x1, line.y1],
    )
}

// A disc is written as a ring of width 0 is. Where a radius and a width have one byte each, they make one word.
fn circle_bytes(kind: Kind, ring: Ring) -> [u8; RECORD_MOST]
    requires { CircleFits ring.big ring.radius ring.width }
    ensures { result ≡ padded (kind_number kind ∷ coordinates (ring.x ∷ ring.y ∷ []) ++ measures ring.big (ring.radius ∷ ring.width ∷ [])) }
{
    let x = ring.x.cast_unsigned();
    let y = ring.y.cast_unsigned();
    if ring.big {
        return words(kind.into(), [x, y, ring.radius, ring.width]);
    }
    let both = u16::from_le_bytes([ring.radius as u8, ring.width as u8]);
    words(kind.into(), [x, y, both])
}

fn disc_bytes(disc: Disc) -> [u8; RECORD_MOST]
    requires { ShapeFits (Shape.Disc disc) }
    ensures { result ≡ padded (record_bytes (Record.Shape (Shape.Disc disc))) }
{
    circle_bytes(
        Kind::from(disc),
        Ring {
            x: disc.x,
            y: disc.y,
            radius: disc.radius,
            width: 0,
            big: disc.big,
        },
    )
}

fn ring_bytes(ring: Ring) -> [u8; RECORD_MOST]
    requires { ShapeFits (Shape.Ring ring) }
    ensures { result ≡ padded (record_bytes (Record.Shape (Shape.Ring ring))) }
{
    circle_bytes(Kind::from(ring), ring)
}

fn triangle_bytes(triangle: Triangle) -> [u8; RECORD_MOST]
    ensures { result ≡ padded (record_bytes (Record.Shape (Shape.Triangle triangle))) }
{
    coordinates(
        Kind::Triangle.into(),
        [
            triangle.x0,
            triangle.y0,
            triangle.x1,
            triangle.y1,
            triangle.x2,
            triangle.y2,
        ],
    )
}

fn shape_bytes(shape: Shape) -> [u8; RECORD_MOST]
    requires { ShapeFits shape }
    ensures { result ≡ padded (record_bytes (Record.Shape shape)) }
{
    match shape {
        Shape::Line(line) => line_bytes(line),
        Shape::Disc(disc) => disc_bytes(disc),
        Shape::Ring(ring) => ring_bytes(ring),
        Shape::Triangle(triangle) => triangle_bytes(triangle),
    }
}

// The bytes of a record, zeros behind them.
pub fn record_bytes(rec: Record) -> [u8; RECORD_MOST]
    requires { RecordFits rec }
    ensures { result ≡ padded (record_bytes rec) }
{
    match rec {
        Record::End => words(Kind::End.into(), []),
        Record::Setting(setting) => setting_bytes(setting),
        Record::Shape(shape) => shape_bytes(shape),
    }
}

// The bytes of a header, zeros behind them: the mark is a byte and a word, and the background with a zero behind it another word.
pub fn header_bytes(header: Header) -> [u8; RECORD_MOST]
    ensures { result ≡ padded (header_bytes header) }
{
    words(
        b'I',
        [
            u16::from_le_bytes(*b"NK"),
            header.version,
            header.w,
            header.h,
            header.background.into(),
        ],
    )
}
