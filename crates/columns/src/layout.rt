// How a line's frame lies on a page.
ghost use Rattle.std.specs.Prelude.{◌≡◌, ◌+◌, ◌^◌, ◌≤◌, ◌<◌};
ghost use Rattle.numbers.specs.inner.Offset.{offset_most};
ghost use Rattle.columns.specs.inner.Layout.{Laid, shown, raised, lowered};

use bands::Frame;
use page::View;

// The offset of coordinate 0, as an index.
pub const ORIGIN: usize = numbers::ORIGIN as usize;

// Row 0 of a frame, as an index.
pub const ROW_ORIGIN: usize = bands::ROW_ORIGIN as usize;

// No row is above this one.
pub const LAST_ROW: usize = 2 * ROW_ORIGIN - 1;

// The row of pixel 0 where the first end is at offset 0.
const RAISED: usize = ROW_ORIGIN + ORIGIN;

// One above that row where rows are mirrored.
const MIRRORED: usize = ROW_ORIGIN - ORIGIN;

// How a line's frame lies on a page: the bytes from one column to the next and from one row to the next, whether rows are mirrored,
// the clip's rows, and what is added to a byte's index.
#[derive(Clone, Copy)]
pub struct Layout {
    pub along: usize,
    pub across: usize,
    pub falls: bool,
    pub low: usize,
    pub high: usize,
    pub origin: usize,
}

impl Layout {
    // How a frame lies on a page. The lowest of mirrored rows is at the clip's end.
    pub fn of(view: View, f: Frame) -> Layout
        requires { (view.w ≤ 1024) × (view.x0 ≤ 1024) × (view.y0 ≤ 1024) × (view.x1 ≤ 1024) × (view.y1 ≤ 1024) × (f.y ≤ offset_most) }
        ensures { Laid view f result }
    {
        let (along, across) = if f.steep { (view.w, 1) } else { (1, view.w) };
        let (from, end) = if f.steep {
            (view.x0, view.x1)
        } else {
            (view.y0, view.y1)
        };
        let y = f.y as usize;
        let (low, high) = if f.falls {
            (y + MIRRORED - end, y + MIRRORED - from)
        } else {
            (from + RAISED - y, end + RAISED - y)
        };
        Layout {
            along,
            across,
            falls: f.falls,
            low,
            high,
            origin: ORIGIN * along + RAISED * across,
        }
    }

    // Whether row g lies in the clip.
    pub fn shows(self, g: usize) -> bool
        ensures { result ≡ shown self g }
    {
        (self.low..self.high).contains(&g)
    }

    // The byte of the row above byte k.
    pub fn above(self, k: usize) -> usize
        requires { (self.across ≤ k) × (k + self.across < 2 ^ 63) }
        ensures { (result ≡ raised self k) × (result ≤ k + self.across) }
    {
        if self.falls {
            k - self.across
        } else {
            k + self.across
        }
    }

    // The byte of the row below byte k.
    pub fn below(self, k: usize) -> usize
        requires { (self.across ≤ k) × (k + self.across < 2 ^ 63) }
        ensures { result ≡ lowered self k }
    {
        if self.falls {
            k + self.across
        } else {
            k - self.across
        }
    }
}
