// One column of a line on a lent page.
#![tactic(auto)]

ghost use Rattle.std.specs.Prelude.{true, ◌≡◌, ◌+◌, ◌*◌, ◌-◌, ◌≤◌, ◌<◌, length};
ghost use Rattle.blending.specs.inner.Quotient.{Coverage};
ghost use Rattle.columns.specs.inner.Layout.{shown, spotted, counted, columned, column_count, Reachable};
ghost use Rattle.steps.specs.inner.Stroke.{At, FirstFits, NextFits, Advanced, Steppable, Inner, Stepped};

use bands::{Frame, Rows};
use columns::layout;
use columns::layout::Layout;
use page::{Ink, View};

// One line on one page; its coverages are over d.
#[derive(Clone, Copy)]
pub struct Stroke {
    pub view: View,
    pub line: shapes::Line,
    pub frame: Frame,
    pub layout: Layout,
    pub d: u64,
}

// Where a walk stands: the column p of the page, the byte k and the row g of the column's middle pixel, its rest r, and how many pixels
// the walk has touched.
#[derive(Clone, Copy)]
pub struct Step {
    pub p: usize,
    pub k: usize,
    pub g: usize,
    pub r: u64,
    pub touched: u64,
}

impl Step {
    // Where a walk that begins at column p stands.
    pub fn first(lay: Layout, f: Frame, p: usize) -> Step
        requires { FirstFits lay f p }
        ensures { At f lay result × (result.p ≡ p) × (result.touched ≡ 0) }
    {
        let c = bands::crossing_at(f.l, f.s, (p as u64) + numbers::ORIGIN - f.x);
        let g = layout::ROW_ORIGIN + (c.q as usize);
        let y = f.y as usize;
        let row = if lay.falls {
            y + layout::LAST_ROW - g
        } else {
            y + g
        };
        Step {
            p,
            k: (p + layout::ORIGIN) * lay.along + row * lay.across,
            g,
            r: c.r,
            touched: 0,
        }
    }

    // The next column, after one that touched t pixels: one row further where the rest comes to a whole row.
    fn next(self, lay: Layout, f: Frame, t: u64) -> Step
        requires { NextFits lay f self × (t ≤ 3) }
        ensures { Advanced lay f t self result }
    {
        let whole = 2 * f.l;
        let rest = self.r + 2 * f.s;
        let p = self.p + 1;
        let touched = self.touched + t;
        if whole <= rest {
            return Step {
                p,
                k: lay.above(self.k) + lay.along,
                g: self.g + 1,
                r: rest - whole,
                touched,
            };
        }
        Step {
            p,
            k: self.k + lay.along,
            g: self.g,
            r: rest,
            touched,
        }
    }
}

// Blends byte k of a page at coverage n, unless that is 0; hands back how many pixels that touched.
fn spot<I: Ink>(page: &mut [u8], ink: I, k: usize, n: u64) -> u64
    requires { (k < length page.old) × Coverage n (I.whole ink) }
    ensures { (page.new ≡ spotted true (I.blends ink) n k page.old) × (result ≡ counted true n) × (result ≤ 1) }
{
    if n == 0 {
        return 0;
    }
    page::put(page, ink, k, n);
    1
}

// The same for byte k - origin in row g, where the clip has that row.
fn spot_shown<I: Ink>(page: &mut [u8], ink: I, lay: Layout, g: usize, k: usize, n: u64) -> u64
    requires origin_le_k { shown lay g ≡ true → (lay.origin ≤ k) × (k - lay.origin < length page.old) }
    requires coverage { Coverage n (I.whole ink) }
    ensures { (page.new ≡ spotted (shown lay g) (I.blends ink) n (k - lay.origin) page.old) × (result ≡ counted (shown lay g) n) × (result ≤ 1) }
{
    if lay.shows(g) {
        spot(page, ink, k - lay.origin, n)
    } else {
        0
    }
}

// Draws the rows of one column that the clip keeps; hands back how many pixels they touched.
fn draw_column<I: Ink>(page: &mut [u8], ink: I, lay: Layout, k: usize, g: usize, rows: Rows) -> u64
    requires reachable { Reachable lay k g (length page.old) }
    requires coverages { Coverage rows.upper (I.whole ink) × Coverage rows.middle (I.whole ink) × Coverage rows.lower (I.whole ink) }
    ensures page_after { page.new ≡ columned lay (I.blends ink) rows k g page.old }
    ensures value { (result ≡ column_count lay rows g) × (result ≤ 3) }
{
    let a = spot_shown(page, ink, lay, g + 1, lay.above(k), rows.upper);
    let b = spot_shown(page, ink, lay, g, k, rows.middle);
    let c = spot_shown(page, ink, lay, g - 1, lay.below(k), rows.lower);
    a + b + c
}

// Draws the column where a walk stands, under the clip, and goes on to the next.
pub fn step_clipped<I: Ink>(page: &mut [u8], ink: I, s: Stroke, at: Step) -> Step
    requires { Steppable s at (length page.old) × (I.whole ink ≡ s.d) }
    ensures { Stepped (I.blends ink) s at result page.old page.new }
{
    let f = s.frame;
    let line = s.line;
    let rows = bands::rows_of(line.exact, f.l, f.s, at.r, s.d);
    let t = draw_column(page, ink, s.layout, at.k, at.g, rows);
    at.next(s.layout, f, t)
}

// Draws a column inside the clip that has two rows, and goes on to the next, in the same row.
fn step_flat<I: Ink>(page: &mut [u8], ink: I, s: Stroke, at: Step) -> Step
    requires { Steppable s at (length page.old) × (I.whole ink ≡ s.d) × Inner s at × (at.r + 2 * s.frame.s < 2 * s.frame.l) }
    ensures { Stepped (I.blends ink) s at result page.old page.new }
{
    let f = s.frame;
    let lay = s.layout;
    let line = s.line;
    let rows = bands::flat_rows(line.exact, f.l, f.s, at.r, s.d);
    let below = lay.below(at.k);
    page::put(page, ink, at.k - lay.origin, rows.middle);
    page::put(page, ink, below - lay.origin, rows.lower);
    at.next(lay, f, 2)
}

// Draws a column inside the clip that has three rows, or two with t = 0, and goes on to the next, one row further.
fn step_crossed<I: Ink>(page: &mut [u8], ink: I, s: Stroke, at: Step) -> Step
    requires { Steppable s at (length page.old) × (I.whole ink ≡ s.d) × Inner s at × (2 * s.frame.l ≤ at.r + 2 * s.frame.s) }
    ensures { Stepped (I.blends ink) s at result page.old page.new }
{
    let f = s.frame;
    let lay = s.layout;
    let line = s.line;
    let rows = bands::crossed_rows(line.exact, f.l, f.s, at.r, s.d);
    let above = lay.above(at.k);
    let below = lay.below(at.k);
    let t = spot(page, ink, above - lay.origin, rows.upper);
    page::put(page, ink, at.k - lay.origin, rows.middle);
    page::put(page, ink, below - lay.origin, rows.lower);
    at.next(lay, f, t + 2)
}

// Draws the column where a walk stands, which lies inside the clip, and goes on to the next.
pub fn step_inside<I: Ink>(page: &mut [u8], ink: I, s: Stroke, at: Step) -> Step
    requires { Steppable s at (length page.old) × (I.whole ink ≡ s.d) × Inner s at }
    ensures { Stepped (I.blends ink) s at result page.old page.new }
{
    let f = s.frame;
    if at.r + 2 * f.s < 2 * f.l {
        step_flat(page, ink, s, at)
    } else {
        step_crossed(page, ink, s, at)
    }
}
