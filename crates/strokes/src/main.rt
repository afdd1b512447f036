// Prints reference strokes that are at the edge of what a coverage query takes: one line each, n and d, or the refusal.
#![tactic(auto)]

use coverage::{Ratio, coverage};
use shapes::{Disc, Line, Ring, Shape};
use std::io;

fn line(exact: bool, x0: i16, y0: i16, x1: i16, y1: i16) -> Shape {
    Shape::Line(Line {
        exact,
        x0,
        y0,
        x1,
        y1,
    })
}

fn disc(x: i16, y: i16, radius: u16) -> Shape {
    Shape::Disc(Disc {
        x,
        y,
        radius,
        big: false,
    })
}

fn ring(x: i16, y: i16, radius: u16, width: u16) -> Shape {
    Shape::Ring(Ring {
        x,
        y,
        radius,
        width,
        big: false,
    })
}

// Shapes, each with the pixel whose coverage by it is asked.
fn queries() -> [(Shape, i16, i16); 18] {
    [
        // radius 1,023 is drawn, 1,024 and 0 are refused
        (disc(0, 0, 1023), 0, 0),
        (disc(0, 0, 1024), 0, 0),
        (disc(0, 0, 0), 0, 0),
        // a height that is rounded up to a row line, and one that is rounded down to one
        (disc(0, 0, 257), 0, 256),
        (disc(0, 0, 273), 52, 268),
        // coordinate 4,095 is drawn, 4,096 is refused, of the shape and of the pixel
        (line(true, 4094, 4094, 4095, 4095), 4094, 4094),
        (line(true, 4094, 4094, 4096, 4095), 4094, 4094),
        (line(true, 4094, 4094, 4095, 4095), 4096, 4094),
        (disc(-4096, 0, 1), -4096, 0),
        (disc(-4097, 0, 1), -4096, 0),
        // a level line: one half in rows 0 and -1
        (line(true, 0, 0, 5, 0), 2, 0),
        (line(true, 0, 0, 5, 0), 2, -1),
        (line(false, 0, 0, 5, 0), 2, 0),
        // t = 0: two rows, and nothing in the third
        (line(false, 0, 0, 2, 1), 0, 1),
        // ends that coincide; a ring's width at its limits
        (line(true, 7, 7, 7, 7), 7, 7),
        (ring(0, 0, 5, 5), 3, 3),
        (ring(0, 0, 5, 6), 3, 3),
        (ring(0, 0, 5, 0), 3, 3),
    ]
}

fn main(rt: HostRuntime) -> io::Result<()> {
    for (shape, x, y) in queries() {
        match coverage(shape, x, y) {
            Ok(Ratio { n, d }) => println!(rt; "{n} {d}")?,
            Err(refusal) => println!(rt; "refused {}", u8::from(refusal))?,
        }
    }
    Ok(())
}
