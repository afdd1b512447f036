// The shapes, the settings and the records of a drawing list, and their coordinates as offsets.
#![tactic(auto)]

ghost use Rattle.std.specs.Prelude.{◌≡◌};
ghost use Rattle.shapes.specs.inner.Offsets.{point_of, outer, ends_of, corners_of};

// How many players there are.
pub const PLAYERS: usize = 8;

#[derive(Clone, Copy, PartialEq, Eq)]
pub struct Line {
    pub exact: bool,
    pub x0: i16,
    pub y0: i16,
    pub x1: i16,
    pub y1: i16,
}

// A disc and a ring are big where a record has two bytes for the radius, and as many for the width: kinds 8 and 9, and not 5 and 6.
#[derive(Clone, Copy, PartialEq, Eq)]
pub struct Disc {
    pub x: i16,
    pub y: i16,
    pub radius: u16,
    pub big: bool,
}

#[derive(Clone, Copy, PartialEq, Eq)]
pub struct Ring {
    pub x: i16,
    pub y: i16,
    pub radius: u16,
    pub width: u16,
    pub big: bool,
}

#[derive(Clone, Copy, PartialEq, Eq)]
pub struct Triangle {
    pub x0: i16,
    pub y0: i16,
    pub x1: i16,
    pub y1: i16,
    pub x2: i16,
    pub y2: i16,
}

#[derive(Clone, Copy, PartialEq, Eq)]
pub enum Shape {
    Line(Line),
    Disc(Disc),
    Ring(Ring),
    Triangle(Triangle),
}

#[derive(Clone, Copy, PartialEq, Eq)]
pub struct Clip {
    pub x0: u16,
    pub y0: u16,
    pub x1: u16,
    pub y1: u16,
}

// What a record is read and written against: the version of its list, W and H.
#[derive(Clone, Copy, PartialEq, Eq)]
pub struct Basis {
    pub version: u16,
    pub w: u16,
    pub h: u16,
}

#[derive(Clone, Copy, PartialEq, Eq)]
pub enum Setting {
    Clip(Clip),
    Level(u8),
    Player(u8),
}

#[derive(Clone, Copy, PartialEq, Eq)]
pub enum Record {
    End,
    Setting(Setting),
    Shape(Shape),
}

// A point, its coordinates as offsets.
#[derive(Clone, Copy)]
pub struct Point {
    pub x: u64,
    pub y: u64,
}

impl Point {
    pub fn new(x: i16, y: i16) -> Point
        ensures { result ≡ point_of x y }
    {
        Point {
            x: numbers::offset(x),
            y: numbers::offset(y),
        }
    }
}

impl Disc {
    pub fn centre(self) -> Point
        ensures { result ≡ point_of self.x self.y }
    {
        Point::new(self.x, self.y)
    }
}

impl Ring {
    pub fn centre(self) -> Point
        ensures { result ≡ point_of self.x self.y }
    {
        Point::new(self.x, self.y)
    }

    // The disc around it.
    pub fn outer(self) -> Disc
        ensures { result ≡ outer self }
    {
        Disc {
            x: self.x,
            y: self.y,
            radius: self.radius,
            big: self.big,
        }
    }
}

// The ends of a line, their coordinates as offsets.
#[derive(Clone, Copy)]
pub struct Ends {
    pub x0: u64,
    pub y0: u64,
    pub x1: u64,
    pub y1: u64,
}

impl From<Line> for Ends {
    ghost from_gives = { λ line ends. ends ≡ ends_of line };

    fn from(line: Line) -> Ends {
        Ends {
            x0: numbers::offset(line.x0),
            y0: numbers::offset(line.y0),
            x1: numbers::offset(line.x1),
            y1: numbers::offset(line.y1),
        }
    }
}

// The corners of a triangle, their coordinates as offsets.
#[derive(Clone, Copy)]
pub struct Corners {
    pub x0: u64,
    pub y0: u64,
    pub x1: u64,
    pub y1: u64,
    pub x2: u64,
    pub y2: u64,
}

impl From<Triangle> for Corners {
    ghost from_gives = { λ triangle corners. corners ≡ corners_of triangle };

    fn from(triangle: Triangle) -> Corners {
        Corners {
            x0: numbers::offset(triangle.x0),
            y0: numbers::offset(triangle.y0),
            x1: numbers::offset(triangle.x1),
            y1: numbers::offset(triangle.y1),
            x2: numbers::offset(triangle.x2),
            y2: numbers::offset(triangle.y2),
        }
    }
}
