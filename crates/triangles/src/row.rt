// A row between two sides: what they leave in part is blended pixel by pixel, what lies whole between them is filled.
ghost use Rattle.std.specs.Prelude.{◌≡◌, ℕ, ◌*◌, ◌≤◌, ◌<◌, length};
ghost use Rattle.triangles.specs.inner.Row.{between_of, RowDrawn, Stretch, Covering, Gives, Alike, Ready};

use super::side::Cut;
use numbers::ORIGIN;
use page::{Ink, View, clamp_offset};
use std::ops::Range;

// The inks of one level for the shares of two sides and for what lies between both.
#[derive(Drop)]
pub struct Inks<I: Ink> {
    pub first: I,
    pub second: I,
    pub both: I,
    pub ghost whole: { I.whole both ≡ I.whole first * I.whole second },
    pub ghost alike: { Alike (I.blends first) (I.whole first) (I.blends both) (I.whole both) },
    pub ghost alike_too: { Alike (I.blends second) (I.whole second) (I.blends both) (I.whole both) },
}

// Blends columns of row y, each by the coverage of its offset; hands back how many pixels it touched.
fn blend_columns<I: Ink, F: Fn(u64) -> u64>(
    page: &mut [u8],
    ink: I,
    view: View,
    y: usize,
    columns: Range<usize>,
    coverage: F,
) -> u64
    requires stretch { Stretch view (length page.old) y columns.start columns.end }
    requires covering { Covering (F.pre coverage) (F.post coverage) (I.whole ink) }
    ensures few { result ≤ columns.end }
    ensures drawn { (n : ℕ → ℕ) → Gives (F.post coverage) n → RowDrawn view (I.blends ink) n y columns.start columns.end page.old page.new result }
{
    let row = y * view.w;
    let mut touched: u64 = 0;
    for x in columns {
        let n = coverage(x as u64 + ORIGIN);
        page::put(page, ink, row + x, n);
        touched += page::touched(n);
    }
    touched
}

// Draws the columns of the clip in row y between two cuts, of which a leaves off before b begins.
fn draw_apart<I: Ink>(page: &mut [u8], inks: &Inks<I>, view: View, a: Cut, b: Cut, y: usize) -> u64
    requires { Ready view (length page.old) a b (I.whole inks.now.first) (I.whole inks.now.second) y × (a.end ≤ b.column) }
    ensures { RowDrawn view (I.blends inks.now.both) (between_of a b) y view.x0 view.x1 page.old page.new result }
{
    let p = clamp_offset(view.x0, view.x1, a.column);
    let q = clamp_offset(view.x0, view.x1, a.end);
    let r = clamp_offset(view.x0, view.x1, b.column);
    let s = clamp_offset(view.x0, view.x1, b.end);
    let left = blend_columns(page, inks.first, view, y, p..q, |z| a.right_of(z));
    let whole = page::fill_row(page, view, inks.both.level(), y, q, r);
    let right = blend_columns(page, inks.second, view, y, r..s, |z| b.left_of(z));
    left + whole + right
}

// Draws the columns of the clip in row y between two cuts. They are handed in from left to right; any others take longer.
pub(crate) fn draw_row<I: Ink>(
    page: &mut [u8],
    inks: &Inks<I>,
    view: View,
    a: Cut,
    b: Cut,
    y: usize,
) -> u64
    requires { Ready view (length page.old) a b (I.whole inks.now.first) (I.whole inks.now.second) y }
    ensures { RowDrawn view (I.blends inks.now.both) (between_of a b) y view.x0 view.x1 page.old page.new result }
{
    if a.end <= b.column {
        return draw_apart(page, inks, view, a, b, y);
    }
    let from = clamp_offset(view.x0, view.x1, a.column.min(b.column));
    let end = clamp_offset(view.x0, view.x1, a.end.max(b.end));
    blend_columns(page, inks.both, view, y, from..end, |z| a.between(b, z))
}
