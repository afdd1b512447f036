// What is drawn on a lent page.
#![tactic(auto)]

pub mod ink; // ink.rt: what a touched pixel's byte becomes
mod even; // even.rt: inks in lights at even steps
mod uneven; // uneven.rt: inks in other lights

ghost use Rattle.std.specs.Prelude.{◌≡◌, ◌+◌, ◌-◌, ◌*◌, ◌≤◌, ◌<◌, length, get_or, set};
ghost use Rattle.blending.specs.inner.Quotient.{Coverage};
ghost use Rattle.page.specs.Page.{over};
ghost use Rattle.page.specs.inner.Paint.{dot, touch, Lawful, Filled, clamped};

pub use even::EvenLights;
pub use ink::{Ink, Palette};
pub use uneven::UnevenLights;

// The width and height of a page, and a clip on it.
#[derive(Clone, Copy)]
pub struct View {
    pub w: usize,
    pub h: usize,
    pub x0: usize,
    pub y0: usize,
    pub x1: usize,
    pub y1: usize,
}

// Blends byte k of a page at coverage n.
pub fn put<I: Ink>(page: &mut [u8], ink: I, k: usize, n: u64)
    requires { (k < length page.old) × Coverage n (I.whole ink) }
    ensures { page.new ≡ set page.old k (dot (I.blends ink) n (get_or page.old k 0)) }
{
    page[k] = ink.over(page[k], n);
}

// Gives every byte of a stretch the level v.
pub fn fill(stretch: &mut [u8], v: u8)
    ensures { stretch.new ≡ over (λ _ _. v) stretch.old }
{
    stretch.fill(v);
}

// 1 for a pixel of coverage n that is touched, else 0.
pub fn touched(n: u64) -> u64
    ensures { result ≡ touch n }
{
    n.min(1)
}

// Gives columns from to end of row y the level v; hands back how many pixels they are.
pub fn fill_row(page: &mut [u8], view: View, v: u8, y: usize, from: usize, end: usize) -> u64
    requires lawful { Lawful view (length page.old) }
    requires y_lt_h { (y < view.h) × (from ≤ end) × (end ≤ view.w) }
    ensures { Filled view.w view.h v y from end page.old page.new result }
{
    let w = view.w;
    let a = y * w + from;
    let e = y * w + end;
    fill(&mut page[a..e], v);
    (end - from) as u64
}

// The column or row of an offset, clamped to lo to hi.
pub fn clamp_offset(lo: usize, hi: usize, c: u64) -> usize
    ensures { result ≡ clamped lo hi c }
{
    let column = c.saturating_sub(numbers::ORIGIN);
    (hi as u64).min(column.max(lo as u64)) as usize
}
