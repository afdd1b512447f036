// What is drawn: a shape of any kind, or of one known kind, which then is not told apart again.
ghost use Rattle.std.specs.Prelude.{◌≡◌, length};
ghost use Rattle.shapes.specs.declared.Shape as shape;
ghost use Rattle.shapes.specs.declared.Shape.TheVariants as kind;
ghost use Rattle.limits.specs.Limits.{shape_refusal};
ghost use Rattle.limits.specs.Refusal.{told};
ghost use Rattle.coverage.specs.Coverage.{drawn_d};
ghost use Rattle.coverage.specs.inner.OnPage.{shape_on};
ghost use Rattle.page.specs.inner.Ink.{ink_of};
ghost use Rattle.page.specs.inner.Paint.{Lawful, DrawnIn};

use bands::frame_of;
use limits::{RADIUS_MOST, Refusal};
use page::{Palette, View};
use shapes::{Disc, Line, Ring, Shape, Triangle};

pub trait Figure: Copy {
    ghost shape: { Self → shape.Shape };

    // Tries it as a call does: a disc and a ring may have any radius.
    fn check(self) -> Result<(), Refusal>
        ensures { told result ≡ shape_refusal (shape self) };

    // Draws it, which is lawful, within the view's clip; hands back how many pixels it touched.
    fn draw<P: Palette>(self, page: &mut [u8], palette: P, view: View, level: u8) -> u64
        requires { Lawful view (length page.old) × (shape_refusal (shape self) ≡ 0) }
        ensures { DrawnIn view (ink_of (P.lights palette) level (drawn_d (shape self))) (shape_on (shape self)) page.old page.new result };
}

impl Figure for Line {
    ghost shape = { kind.Line };

    fn check(self) -> Result<(), Refusal> {
        limits::check_line(self)
    }

    fn draw<P: Palette>(self, page: &mut [u8], palette: P, view: View, level: u8) -> u64 {
        lines::draw_line(page, palette, view, self, frame_of(self), level)
    }
}

impl Figure for Disc {
    ghost shape = { kind.Disc };

    fn check(self) -> Result<(), Refusal> {
        limits::check_disc(self, RADIUS_MOST)
    }

    fn draw<P: Palette>(self, page: &mut [u8], palette: P, view: View, level: u8) -> u64 {
        circles::draw_disc(page, palette, view, self, level)
    }
}

impl Figure for Ring {
    ghost shape = { kind.Ring };

    fn check(self) -> Result<(), Refusal> {
        limits::check_ring(self, RADIUS_MOST)
    }

    fn draw<P: Palette>(self, page: &mut [u8], palette: P, view: View, level: u8) -> u64 {
        circles::draw_ring(page, palette, view, self, level)
    }
}

impl Figure for Triangle {
    ghost shape = { kind.Triangle };

    fn check(self) -> Result<(), Refusal> {
        limits::check_triangle(self)
    }

    fn draw<P: Palette>(self, page: &mut [u8], palette: P, view: View, level: u8) -> u64 {
        triangles::draw_triangle(page, palette, view, self, level)
    }
}

impl Figure for Shape {
    ghost shape = { λ s. s };

    fn check(self) -> Result<(), Refusal> {
        limits::check_shape(self, RADIUS_MOST)
    }

    fn draw<P: Palette>(self, page: &mut [u8], palette: P, view: View, level: u8) -> u64 {
        match self {
            Shape::Line(line) => line.draw(page, palette, view, level),
            Shape::Disc(disc) => disc.draw(page, palette, view, level),
            Shape::Ring(ring) => ring.draw(page, palette, view, level),
            Shape::Triangle(triangle) => triangle.draw(page, palette, view, level),
        }
    }
}
