// Which sizes, clips, players, shapes and records are lawful, and the first refusal of each that is not.
#![tactic(auto)]

mod refusal; // refusal.rt: why something is refused

ghost use Rattle.std.specs.Prelude.{◌≡◌, ◌≤◌};
ghost use Rattle.numbers.specs.inner.Offset.{offset_most};
ghost use Rattle.shapes.specs.inner.Offsets.{greatest_of, least_of, spread_of, farthest, straight};
ghost use Rattle.limits.specs.Limits.{size_refusal, basis_refusal, clip_refusal, player_refusal, refusal_within, shape_refusal, circle_room, radius_room, record_refusal};
ghost use Rattle.limits.specs.Refusal.{told};

use numbers::OFFSET_MOST;
pub use refusal::Refusal;
use shapes::{Basis, Clip, Corners, Disc, Ends, Line, Record, Ring, Setting, Shape, Triangle};

// The latest version of the format.
pub const VERSION_MOST: u16 = 2;

// The greatest width and height of a page.
pub const SIDE_MOST: u16 = 1024;

// The greatest radius, and the greatest that one byte of a record holds.
pub const RADIUS_MOST: u16 = 1023;

const BYTE_RADIUS_MOST: u16 = 255;

// The greatest width and height of a triangle.
pub const TRIANGLE_MOST: u64 = 127;

// The last player; the first is 0.
pub const PLAYER_MOST: u8 = 7;

// The greatest and the least of three offsets.
fn greatest(a: u64, b: u64, c: u64) -> u64
    ensures { result ≡ greatest_of a b c }
{
    a.max(b).max(c)
}

fn least(a: u64, b: u64, c: u64) -> u64
    ensures { result ≡ least_of a b c }
{
    a.min(b).min(c)
}

// How far three offsets are apart.
fn spread(a: u64, b: u64, c: u64) -> u64
    ensures { result ≡ spread_of a b c }
{
    greatest(a, b, c) - least(a, b, c)
}

#[tactic(auto, using(std::proofs::lemmas::Bool::Decides::nat_tests), unfolding(crate::specs::Limits::size_refusal, crate::specs::Limits::off_size))]
pub fn check_size(w: u16, h: u16) -> Result<(), Refusal>
    ensures { told result ≡ size_refusal w h }
{
    if w < 1 || SIDE_MOST < w || h < 1 || SIDE_MOST < h {
        return Err(Refusal::Size);
    }
    Ok(())
}

#[tactic(auto, using(std::proofs::lemmas::Bool::Decides::nat_tests), unfolding(crate::specs::Limits::basis_refusal))]
pub fn check_basis(basis: Basis) -> Result<(), Refusal>
    ensures { told result ≡ basis_refusal basis }
{
    if basis.version < 1 || VERSION_MOST < basis.version {
        return Err(Refusal::Version);
    }
    check_size(basis.w, basis.h)
}

// Tries a clip on a page of w by h.
#[tactic(auto, using(std::proofs::lemmas::Bool::Decides::nat_tests), unfolding(crate::specs::Limits::clip_refusal, crate::specs::Limits::off_page))]
pub fn check_clip(w: u16, h: u16, clip: Clip) -> Result<(), Refusal>
    ensures { told result ≡ clip_refusal w h clip }
{
    if clip.x1 < clip.x0 || w < clip.x1 || clip.y1 < clip.y0 || h < clip.y1 {
        return Err(Refusal::Clip);
    }
    Ok(())
}

#[tactic(auto, using(std::proofs::lemmas::Bool::Decides::nat_tests), unfolding(crate::specs::Limits::player_refusal))]
pub fn check_player(player: u8) -> Result<(), Refusal>
    ensures { told result ≡ player_refusal player }
{
    if PLAYER_MOST < player {
        return Err(Refusal::Player);
    }
    Ok(())
}

#[tactic(auto, using(std::proofs::lemmas::Bool::Decides::nat_tests, crate::proofs::Limits::line_refusals))]
pub fn check_line(line: Line) -> Result<(), Refusal>
    ensures { told result ≡ shape_refusal (Shape.Line line) }
{
    let e = Ends::from(line);
    if OFFSET_MOST < e.x0 || OFFSET_MOST < e.y0 || OFFSET_MOST < e.x1 || OFFSET_MOST < e.y1 {
        return Err(Refusal::Range);
    }
    if e.x0 == e.x1 && e.y0 == e.y1 {
        return Err(Refusal::Coincident);
    }
    Ok(())
}

// A disc whose radius may be at most `most`.
#[tactic(auto, using(std::proofs::lemmas::Bool::Decides::nat_tests, crate::proofs::Limits::disc_refusals))]
pub fn check_disc(disc: Disc, most: u16) -> Result<(), Refusal>
    ensures { told result ≡ refusal_within most (Shape.Disc disc) }
{
    let p = disc.centre();
    if OFFSET_MOST < p.x || OFFSET_MOST < p.y {
        return Err(Refusal::Range);
    }
    if disc.radius == 0 {
        return Err(Refusal::Radius);
    }
    if most < disc.radius {
        return Err(Refusal::Large);
    }
    Ok(())
}

// A ring: its disc, then its width.
#[tactic(auto, using(std::proofs::lemmas::Bool::Decides::nat_tests, crate::proofs::Limits::ring_refusals))]
pub fn check_ring(ring: Ring, most: u16) -> Result<(), Refusal>
    ensures { told result ≡ refusal_within most (Shape.Ring ring) }
{
    check_disc(ring.outer(), most)?;
    if ring.width < 1 || ring.radius < ring.width {
        return Err(Refusal::Width);
    }
    Ok(())
}

// Whether three corners are on one straight line: both ways round, the products of neighbours add up to the same.
#[tactic(auto, unfolding(shapes::specs::inner::Offsets::straight))]
fn on_one_line(c: Corners) -> bool
    requires { farthest c ≤ offset_most }
    ensures { result ≡ straight c }
{
    let one_way = c.x0 * c.y1 + c.x1 * c.y2 + c.x2 * c.y0;
    let other_way = c.x1 * c.y0 + c.x2 * c.y1 + c.x0 * c.y2;
    one_way == other_way
}

#[tactic(auto, using(std::proofs::lemmas::Bool::Decides::nat_tests, crate::proofs::Triangles::triangle_refusals))]
pub fn check_triangle(triangle: Triangle) -> Result<(), Refusal>
    ensures { told result ≡ shape_refusal (Shape.Triangle triangle) }
{
    let c = Corners::from(triangle);
    if OFFSET_MOST < greatest(c.x0, c.x1, c.x2).max(greatest(c.y0, c.y1, c.y2)) {
        return Err(Refusal::Range);
    }
    let large = TRIANGLE_MOST < spread(c.x0, c.x1, c.x2).max(spread(c.y0, c.y1, c.y2));
    let line = on_one_line(c);
    if large {
        return Err(Refusal::Extent);
    }
    if line {
        return Err(Refusal::Straight);
    }
    Ok(())
}

// A shape whose radius may be at most `most`.
#[tactic(auto, using(crate::proofs::Limits::line_within, crate::proofs::Limits::triangle_within))]
pub fn check_shape(shape: Shape, most: u16) -> Result<(), Refusal>
    ensures { told result ≡ refusal_within most shape }
{
    match shape {
        Shape::Line(line) => check_line(line),
        Shape::Disc(disc) => check_disc(disc, most),
        Shape::Ring(ring) => check_ring(ring, most),
        Shape::Triangle(triangle) => check_triangle(triangle),
    }
}

// The greatest radius of a record of a disc or a ring.
pub fn circle_room(big: bool) -> u16
    ensures { result ≡ circle_room big }
{
    if big { RADIUS_MOST } else { BYTE_RADIUS_MOST }
}

// The greatest radius of the record of a shape; a line and a triangle have none that could be too great.
fn radius_room(shape: Shape) -> u16
    ensures { result ≡ radius_room shape }
{
    match shape {
        Shape::Line(_) => RADIUS_MOST,
        Shape::Disc(disc) => circle_room(disc.big),
        Shape::Ring(ring) => circle_room(ring.big),
        Shape::Triangle(_) => RADIUS_MOST,
    }
}

#[tactic(auto, using(std::proofs::lemmas::Bool::Decides::nat_tests), unfolding(crate::specs::Limits::record_refusal))]
pub fn check_record(basis: Basis, rec: Record) -> Result<(), Refusal>
    ensures { told result ≡ record_refusal basis rec }
{
    match rec {
        Record::Setting(Setting::Clip(clip)) => check_clip(basis.w, basis.h, clip),
        Record::Setting(Setting::Player(player)) => check_player(player),
        Record::Shape(shape) => check_shape(shape, radius_room(shape)),
        Record::Setting(Setting::Level(_)) | Record::End => Ok(()),
    }
}
