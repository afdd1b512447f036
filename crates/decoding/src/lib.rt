// The header and the record whose bytes stand at the front of some bytes.
#![tactic(auto)]

ghost use Rattle.std.specs.Prelude.{◌≡◌, ◌+◌, ◌≤◌, cond, length};
ghost use Rattle.format.specs.Format.{header_size, word_at, coordinate_at, header_at, clip_at, line_at, measure_at, disc_at, ring_at, triangle_at, record_at};
ghost use Rattle.format.specs.inner.Record.{Whole};

use format::{Header, Kind};
use shapes::{Clip, Disc, Line, Record, Ring, Setting, Shape, Triangle};

// The two bytes at a place, the low one first.
fn word_at(list: &[u8], place: usize) -> u16
    requires { place + 2 ≤ length list.now }
    ensures { result ≡ word_at list.now place }
{
    u16::from_le_bytes([list[place], list[place + 1]])
}

// The coordinate at a place.
fn coordinate_at(list: &[u8], place: usize) -> i16
    requires { place + 2 ≤ length list.now }
    ensures { result ≡ coordinate_at list.now place }
{
    word_at(list, place).cast_signed()
}

// The radius or the width at a place.
fn measure_at(big: bool, list: &[u8], place: usize) -> u16
    requires { place + cond big 2 1 ≤ length list.now }
    ensures { result ≡ measure_at big list.now place }
{
    if big {
        word_at(list, place)
    } else {
        u16::from(list[place])
    }
}

fn clip_at(list: &[u8]) -> Clip
    requires { 9 ≤ length list.now }
    ensures { result ≡ clip_at list.now }
{
    Clip {
        x0: word_at(list, 1),
        y0: word_at(list, 3),
        x1: word_at(list, 5),
        y1: word_at(list, 7),
    }
}

fn line_at(exact: bool, list: &[u8]) -> Line
    requires { 9 ≤ length list.now }
    ensures { result ≡ line_at exact list.now }
{
    Line {
        exact,
        x0: coordinate_at(list, 1),
        y0: coordinate_at(list, 3),
        x1: coordinate_at(list, 5),
        y1: coordinate_at(list, 7),
    }
}

fn disc_at(big: bool, list: &[u8]) -> Disc
    requires { cond big 7 6 ≤ length list.now }
    ensures { result ≡ disc_at big list.now }
{
    Disc {
        x: coordinate_at(list, 1),
        y: coordinate_at(list, 3),
        radius: measure_at(big, list, 5),
        big,
    }
}

fn ring_at(big: bool, list: &[u8]) -> Ring
    requires { cond big 9 7 ≤ length list.now }
    ensures { result ≡ ring_at big list.now }
{
    Ring {
        x: coordinate_at(list, 1),
        y: coordinate_at(list, 3),
        radius: measure_at(big, list, 5),
        width: measure_at(big, list, if big { 7 } else { 6 }),
        big,
    }
}

fn triangle_at(list: &[u8]) -> Triangle
    requires { 13 ≤ length list.now }
    ensures { result ≡ triangle_at list.now }
{
    Triangle {
        x0: coordinate_at(list, 1),
        y0: coordinate_at(list, 3),
        x1: coordinate_at(list, 5),
        y1: coordinate_at(list, 7),
        x2: coordinate_at(list, 9),
        y2: coordinate_at(list, 11),
    }
}

// The record whose bytes stand at the front.
#[tactic(auto, using(format::proofs::Bytes::unknown_kind_lem), unfolding(format::specs::Format::kind_size, format::specs::Format::decoded))]
pub fn decode(list: &[u8]) -> Record
    requires { Whole list.now }
    ensures { result ≡ record_at list.now }
{
    let kind = Kind::try_from(list[0]).unwrap();
    match kind {
        Kind::End => Record::End,
        Kind::Clip => Record::Setting(Setting::Clip(clip_at(list))),
        Kind::Level => Record::Setting(Setting::Level(list[1])),
        // One arm for both: with an arm each the check of a list was slower.
        Kind::ExactLine | Kind::ApproximateLine => {
            Record::Shape(Shape::Line(line_at(kind == Kind::ExactLine, list)))
        }
        Kind::Disc => Record::Shape(Shape::Disc(disc_at(false, list))),
        Kind::Ring => Record::Shape(Shape::Ring(ring_at(false, list))),
        Kind::Player => Record::Setting(Setting::Player(list[1])),
        Kind::BigDisc => Record::Shape(Shape::Disc(disc_at(true, list))),
        Kind::BigRing => Record::Shape(Shape::Ring(ring_at(true, list))),
        Kind::Triangle => Record::Shape(Shape::Triangle(triangle_at(list))),
    }
}

// The header at the front.
pub fn read_header(list: &[u8]) -> Header
    requires { header_size ≤ length list.now }
    ensures { result ≡ header_at list.now }
{
    Header {
        version: word_at(list, 3),
        w: word_at(list, 5),
        h: word_at(list, 7),
        background: list[9],
    }
}
