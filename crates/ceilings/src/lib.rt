// How many pixels a shape may touch, and what trying a record tells: its refusal, or what it counts towards the ceiling of its list.
#![tactic(auto)]

ghost use Rattle.std.specs.Prelude.{◌≡◌, ◌*◌, ◌≤◌, ◌-ℤ◌, nat_abs};
ghost use Rattle.limits.specs.Limits.{refusal_within, radius_room};
ghost use Rattle.limits.specs.Refusal.{numbered};
ghost use Rattle.shapes.specs.Span.{greatest, smallest};
ghost use Rattle.ceilings.specs.Ceiling.{shape_ceiling, clip_pixels};
ghost use Rattle.ceilings.specs.inner.Tried.{counted, tried_by, record_tried};

use limits::Refusal;
use shapes::{Basis, Clip, Line, Record, Setting, Shape, Triangle};

// How far three coordinates are apart.
#[tactic(auto, using(crate::proofs::Coordinates::coordinates))]
fn extent(a: i16, b: i16, c: i16) -> u16
    ensures { result ≡ nat_abs (greatest a b c -ℤ smallest a b c) }
{
    a.max(b).max(c).abs_diff(a.min(b).min(c))
}

// What a line, a disc or a ring, and a triangle count.
// Spans are told in 64 bits, as offsets are: in 16 the check of a list takes longer.
#[tactic(auto, using(crate::proofs::Coordinates::coordinates), unfolding(crate::specs::Ceiling::shape_ceiling, shapes::specs::Span::longer, shapes::specs::Span::span_x, shapes::specs::Span::span_y))]
fn line_ceiling(line: Line) -> u64
    ensures { result ≡ shape_ceiling (Shape.Line line) }
{
    let x = i64::from(line.x1).abs_diff(i64::from(line.x0));
    let y = i64::from(line.y1).abs_diff(i64::from(line.y0));
    3 * x.max(y)
}

fn circle_ceiling(radius: u16) -> u64
    ensures { result ≡ 4 * (radius * radius) }
{
    4 * u64::from(radius) * u64::from(radius)
}

#[tactic(auto, using(crate::proofs::Coordinates::coordinates), unfolding(crate::specs::Ceiling::shape_ceiling, shapes::specs::Span::width, shapes::specs::Span::height))]
fn triangle_ceiling(triangle: Triangle) -> u64
    ensures { result ≡ shape_ceiling (Shape.Triangle triangle) }
{
    u64::from(extent(triangle.x0, triangle.x1, triangle.x2))
        * u64::from(extent(triangle.y0, triangle.y1, triangle.y2))
}

// The pixels of a clip.
#[tactic(auto, unfolding(crate::specs::Ceiling::clip_pixels))]
fn clip_pixels(clip: Clip) -> u64
    ensures { result ≡ clip_pixels clip }
{
    u64::from(clip.x1.saturating_sub(clip.x0)) * u64::from(clip.y1.saturating_sub(clip.y0))
}

// What a record counts, and the pixels of the clip in force behind it.
#[derive(Clone, Copy)]
pub struct Counted {
    pub ceiling: u64,
    pub pixels: u64,
}

impl Counted {
    // Under a clip of so many pixels nothing counts more than these.
    fn under(most: u64, pixels: u64) -> Counted
        ensures { result ≡ counted most pixels }
    {
        Counted {
            ceiling: most.min(pixels),
            pixels,
        }
    }
}

#[tactic(auto, unfolding(crate::specs::Ceiling::shape_ceiling))]
fn try_shape(shape: Shape, pixels: u64) -> Result<Counted, Refusal>
    ensures { numbered result ≡ tried_by (refusal_within (radius_room shape) shape) (shape_ceiling shape) pixels }
{
    let most = match shape {
        Shape::Line(line) => {
            limits::check_line(line)?;
            line_ceiling(line)
        }
        Shape::Disc(disc) => {
            limits::check_disc(disc, limits::circle_room(disc.big))?;
            circle_ceiling(disc.radius)
        }
        Shape::Ring(ring) => {
            limits::check_ring(ring, limits::circle_room(ring.big))?;
            circle_ceiling(ring.radius)
        }
        Shape::Triangle(triangle) => {
            limits::check_triangle(triangle)?;
            triangle_ceiling(triangle)
        }
    };
    Ok(Counted::under(most, pixels))
}

// Its kind is told apart once for all that the check of a list asks; asked one by one, the check takes about twice as long.
#[tactic(auto, unfolding(limits::specs::Limits::record_refusal, crate::specs::inner::Tried::record_counts, crate::specs::inner::Tried::pixels_after))]
pub fn try_record(basis: Basis, rec: Record, pixels: u64) -> Result<Counted, Refusal>
    ensures { numbered result ≡ record_tried basis pixels rec }
{
    match rec {
        Record::Setting(Setting::Clip(clip)) => {
            limits::check_clip(basis.w, basis.h, clip)?;
            Ok(Counted::under(0, clip_pixels(clip)))
        }
        Record::Setting(Setting::Player(player)) => {
            limits::check_player(player)?;
            Ok(Counted::under(0, pixels))
        }
        Record::Shape(shape) => try_shape(shape, pixels),
        Record::Setting(Setting::Level(_)) | Record::End => Ok(Counted::under(0, pixels)),
    }
}
