// Which columns of a line a walk takes: those in which the line touches a pixel under the clip, and among them those whose rows the clip
// has all. The band's edges only rise, so that either lie together.
#![tactic(auto)]

pub mod layout;

ghost use Rattle.std.specs.Prelude.{◌≡◌, ◌+◌, ◌*◌, ◌≤◌, ◌<◌, leb};
ghost use Rattle.numbers.specs.inner.Offset.{offset_most};
ghost use Rattle.bands.specs.inner.Frame.{Framed};
ghost use Rattle.page.specs.inner.Paint.{Lawful};
ghost use Rattle.columns.specs.inner.Columns.{Common, PartFits, Part, RowsFit, has_rows, InsidePart, TouchedPart, Columns};

use crate::layout::Layout;
use bands::{Frame, ROW_ORIGIN, column_reaching};
use page::View;
use std::ops::Range;

// The columns of the page, or its rows where the line is steep, from one to before another.
#[derive(Clone, Copy)]
pub struct Span {
    pub from: usize,
    pub end: usize,
}

impl Span {
    pub fn is_empty(self) -> bool
        ensures { result ≡ leb self.end self.from }
    {
        self.end <= self.from
    }
}

// The columns that the clip and the line have in common.
fn common_of(view: View, f: Frame) -> Span
    requires { (view.x1 ≤ 1024) × (view.y1 ≤ 1024) × (f.x + f.l ≤ offset_most) }
    ensures { Common view f result.from result.end }
{
    let (first, last) = if f.steep {
        (view.y0, view.y1)
    } else {
        (view.x0, view.x1)
    };
    let left = f.x.saturating_sub(numbers::ORIGIN) as usize;
    let right = (f.x + f.l).saturating_sub(numbers::ORIGIN) as usize;
    Span {
        from: first.max(left),
        end: last.min(right),
    }
}

// Those of some columns at which the band's upper edge has come to the first of two rises and not yet to the other.
fn part_of(f: Frame, rises: Range<u64>, columns: Span) -> Span
    requires { PartFits f columns.from columns.end }
    ensures { Part f rises.start rises.end columns.from columns.end result.from result.end }
{
    let i = (columns.from as u64) + numbers::ORIGIN - f.x;
    let j = (columns.end as u64) + numbers::ORIGIN - f.x;
    let a = column_reaching(f.l, f.s, rises.start, i, j);
    let b = column_reaching(f.l, f.s, rises.end, a, j);
    Span {
        from: (a + f.x - numbers::ORIGIN) as usize,
        end: (b + f.x - numbers::ORIGIN) as usize,
    }
}

// Those of some columns whose rows the clip has all.
pub fn inside_of(lay: Layout, f: Frame, columns: Span) -> Span
    requires { PartFits f columns.from columns.end × RowsFit lay }
    ensures { InsidePart f lay columns.from columns.end result.from result.end }
{
    let above = (lay.low as u64 + 1).saturating_sub(ROW_ORIGIN);
    let below = (lay.high as u64).saturating_sub(ROW_ORIGIN + 1);
    part_of(f, 2 * f.l * above..2 * f.l * below, columns)
}

// Those of some columns of whose rows the clip has some: the upper edge comes above the floor of its lowest row before the right side, and
// the lower edge is below the top of its highest row at the left side.
fn touched_of(lay: Layout, f: Frame, columns: Span) -> Span
    requires { PartFits f columns.from columns.end × RowsFit lay }
    ensures { TouchedPart f lay columns.from columns.end result.from result.end }
{
    let floor = 2 * f.l * (lay.low as u64).saturating_sub(ROW_ORIGIN);
    let top = (lay.high as u64 + 1).saturating_sub(ROW_ORIGIN);
    part_of(
        f,
        (floor + 1).saturating_sub(2 * f.s)..2 * f.l * top,
        columns,
    )
}

// The columns in which a line touches a pixel under the clip.
pub fn columns_of(view: View, line: shapes::Line, f: Frame) -> Span
    requires { Lawful view (view.h * view.w) × Framed line f }
    ensures { Columns view line f result.from result.end }
{
    let common = common_of(view, f);
    if common.is_empty() {
        return common;
    }
    let lay = Layout::of(view, f);
    if lay.high <= lay.low {
        return Span { from: 0, end: 0 };
    }
    touched_of(lay, f, common)
}

// Whether the clip has every row that a line can have: they go from one below row 0 to row s.
fn has_rows(lay: Layout, f: Frame) -> bool
    requires { f.s ≤ offset_most }
    ensures { result ≡ has_rows lay f }
{
    lay.low < layout::ROW_ORIGIN && layout::ROW_ORIGIN + (f.s as usize) < lay.high
}

// The columns that a walk takes, which are the touched ones. Where the clip has every row of a line, no edge has to be compared. A
// call of it would be slower.
#[inline(always)]
pub fn walk_of(view: View, line: shapes::Line, f: Frame) -> Span
    requires { Lawful view (view.h * view.w) × Framed line f }
    ensures { Columns view line f result.from result.end }
{
    if has_rows(Layout::of(view, f), f) {
        return common_of(view, f);
    }
    columns_of(view, line, f)
}
