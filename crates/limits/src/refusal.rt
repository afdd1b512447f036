// Why something is refused, and its number.
ghost use Rattle.std.specs.Prelude.{◌≡◌};
ghost use Rattle.limits.specs.Refusal.{number_of};

use std::error::Error;
use std::fmt;

#[derive(Clone, Copy, Debug, PartialEq, Eq)]
pub enum Refusal {
    Mark,
    Version,
    Size,
    Kind,
    Short,
    Trailing,
    Range,
    Clip,
    Coincident,
    Radius,
    Width,
    Long,
    Room,
    Full,
    Player,
    Lights,
    Large,
    Extent,
    Straight,
}

impl From<Refusal> for u8 {
    ghost from_gives = { λ refusal n. n ≡ number_of refusal };

    fn from(refusal: Refusal) -> u8 {
        match refusal {
            Refusal::Mark => 1,
            Refusal::Version => 2,
            Refusal::Size => 3,
            Refusal::Kind => 4,
            Refusal::Short => 5,
            Refusal::Trailing => 6,
            Refusal::Range => 7,
            Refusal::Clip => 8,
            Refusal::Coincident => 9,
            Refusal::Radius => 10,
            Refusal::Width => 11,
            Refusal::Long => 12,
            Refusal::Room => 21,
            Refusal::Full => 22,
            Refusal::Player => 31,
            Refusal::Lights => 32,
            Refusal::Large => 33,
            Refusal::Extent => 34,
            Refusal::Straight => 35,
        }
    }
}

impl fmt::Display for Refusal {
    fn fmt<W: fmt::Write>(&self, f: &mut fmt::Formatter<W>) -> fmt::Result {
        let words = match self {
            Refusal::Mark => "the list does not begin with the letters INK",
            Refusal::Version => "the version is neither 1 nor 2",
            Refusal::Size => "the width or height of the page is outside 1 to 1,024",
            Refusal::Kind => "the version of the list has no record of this kind",
            Refusal::Short => "the list is cut short",
            Refusal::Trailing => "bytes follow the end record",
            Refusal::Range => "a coordinate is outside -4,096 to 4,095",
            Refusal::Clip => "the clip is out of order or off the page",
            Refusal::Coincident => "the ends of the line coincide",
            Refusal::Radius => "the radius is 0",
            Refusal::Width => "the width of the ring is 0 or above its radius",
            Refusal::Long => "the list has more than 65,536 bytes",
            Refusal::Room => "the page has fewer bytes than pixels",
            Refusal::Full => "too few bytes are left for what is to be written",
            Refusal::Player => "the player is above 7",
            Refusal::Lights => "the lights are not 256 in number, or not strictly rising",
            Refusal::Large => "the radius is too large",
            Refusal::Extent => "the width or height of the triangle is above 127",
            Refusal::Straight => "the corners of the triangle are on one straight line",
        };
        write!(f, "{words}")
    }
}

impl Error for Refusal {}
