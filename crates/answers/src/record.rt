// One record that was read, and where the writer stands.
ghost use Rattle.std.specs.Prelude.{◌≡◌};
ghost use Rattle.limits.specs.Refusal.{numbered};
ghost use Rattle.answers.specs.Record.{numbers_of, record_answer, read_answer, write_answer};

use crate::number_of;
use arguments::GivenBasis;
use format::{Kind, record_size};
use limits::Refusal;
use records::write::Cursor;
use shapes::{Record, Setting, Shape};

// A record where refusal is 0: how many bytes it has, its kind byte and its numbers in their order. What a kind has not is 0.
#[repr(C)]
#[derive(Clone, Copy)]
pub struct ReadAnswer {
    pub refusal: u32,
    pub place: usize,
    pub size: usize,
    pub kind: u32,
    pub numbers: [i32; 6],
}

// The numbers of a setting, of a shape and of a record in the order of its bytes, then zeros.
fn setting_numbers(setting: Setting) -> [i32; 6]
    ensures { result ≡ numbers_of (Record.Setting setting) }
{
    match setting {
        Setting::Clip(clip) => [
            clip.x0.into(),
            clip.y0.into(),
            clip.x1.into(),
            clip.y1.into(),
            0,
            0,
        ],
        Setting::Level(level) => [level.into(), 0, 0, 0, 0, 0],
        Setting::Player(player) => [player.into(), 0, 0, 0, 0, 0],
    }
}

fn shape_numbers(shape: Shape) -> [i32; 6]
    ensures { result ≡ numbers_of (Record.Shape shape) }
{
    match shape {
        Shape::Line(l) => [l.x0.into(), l.y0.into(), l.x1.into(), l.y1.into(), 0, 0],
        Shape::Disc(d) => [d.x.into(), d.y.into(), d.radius.into(), 0, 0, 0],
        Shape::Ring(r) => [
            r.x.into(),
            r.y.into(),
            r.radius.into(),
            r.width.into(),
            0,
            0,
        ],
        Shape::Triangle(t) => [
            t.x0.into(),
            t.y0.into(),
            t.x1.into(),
            t.y1.into(),
            t.x2.into(),
            t.y2.into(),
        ],
    }
}

fn record_numbers(rec: Record) -> [i32; 6]
    ensures { result ≡ numbers_of rec }
{
    match rec {
        Record::End => [0; 6],
        Record::Setting(setting) => setting_numbers(setting),
        Record::Shape(shape) => shape_numbers(shape),
    }
}

impl From<Record> for ReadAnswer {
    ghost from_gives = { λ rec answer. answer ≡ record_answer rec };

    fn from(rec: Record) -> ReadAnswer {
        let kind = Kind::from(rec);
        ReadAnswer {
            refusal: 0,
            place: 0,
            size: record_size(rec),
            kind: u8::from(kind).into(),
            numbers: record_numbers(rec),
        }
    }
}

impl From<Result<Record, Refusal>> for ReadAnswer {
    ghost from_gives = { λ reading answer. answer ≡ read_answer (numbered reading) };

    fn from(reading: Result<Record, Refusal>) -> ReadAnswer {
        match reading {
            Ok(rec) => rec.into(),
            Err(refusal) => ReadAnswer {
                refusal: number_of(refusal),
                place: 0,
                size: 0,
                kind: 0,
                numbers: [0; 6],
            },
        }
    }
}

// Where the next record goes, and the version, W and H that are held from now on; after a refusal they are those that were given.
#[repr(C)]
#[derive(Clone, Copy)]
pub struct WriteAnswer {
    pub refusal: u32,
    pub place: usize,
    pub next: usize,
    pub basis: GivenBasis,
}

// The writer's answer in the form that C takes; the basis and the place are those that were given.
pub fn write_answer(
    basis: GivenBasis,
    place: usize,
    written: Result<Cursor, Refusal>,
) -> WriteAnswer
    ensures { result ≡ write_answer basis place (numbered written) }
{
    match written {
        Ok(at) => WriteAnswer {
            refusal: 0,
            place: 0,
            next: at.place,
            basis: at.basis.into(),
        },
        Err(refusal) => WriteAnswer {
            refusal: number_of(refusal),
            place: 0,
            next: place,
            basis,
        },
    }
}
