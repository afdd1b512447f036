// Lines on a lent page, column by column along the longer span.
#![tactic(auto)]

ghost use Rattle.std.specs.Prelude.{◌≡◌, length};
ghost use Rattle.shapes.specs.declared.Shape.TheVariants.{Line as asShape};
ghost use Rattle.coverage.specs.Coverage.{drawn_d};
ghost use Rattle.bands.specs.inner.Frame.{Framed};
ghost use Rattle.coverage.specs.inner.OnPage.{shape_on};
ghost use Rattle.page.specs.inner.Ink.{ink_of};
ghost use Rattle.page.specs.inner.Paint.{in_view, Lawful, Drawn};
ghost use Rattle.columns.specs.inner.Layout.{Between, strip};
ghost use Rattle.lines.specs.inner.Columns.{Drawable, Walking, ColumnsDrawn};

use bands::Frame;
use columns::Span;
use columns::layout::Layout;
use page::{Ink, Palette, View};
use steps::{Step, Stroke, step_clipped, step_inside};

// Draws columns of a stroke, if any, each by a step of a walk; hands back how many pixels they touched. Its loop is for one kind of columns,
// so that none has to tell whether it lies inside the clip.
fn draw_walk<I: Ink, F: Fn(&mut [u8], I, Stroke, Step) -> Step>(
    page: &mut [u8],
    ink: I,
    s: Stroke,
    columns: Span,
    step: F,
) -> u64
    requires drawable { Drawable s columns.from columns.end (length page.old) }
    requires walking { Walking (I.blends ink) s columns.from columns.end (λ l at. F.pre step l ink s at) (λ l at to m. F.post step l ink s at to m) }
    ensures { ColumnsDrawn (I.blends ink) s columns.from columns.end page.old page.new result }
{
    if columns.is_empty() {
        return 0;
    }
    let mut at = Step::first(s.layout, s.frame, columns.from);
    // no index is counted: each step tells where the next one is
    while at.p < columns.end {
        at = step(page, ink, s, at);
    }
    at.touched
}

// Draws columns of a line, at least one; hands back how many pixels they touched.
pub(crate) fn draw_columns<P: Palette>(
    page: &mut [u8],
    palette: P,
    view: View,
    line: shapes::Line,
    f: Frame,
    level: u8,
    columns: Span,
) -> u64
    requires { Lawful view (length page.old) × Framed line f × Between view f columns.from columns.end }
    ensures { Drawn view.w view.h (ink_of (P.lights palette) level (drawn_d (asShape line)))
        (strip view f columns.from columns.end (shape_on (asShape line))) page.old page.new result }
{
    let layout = Layout::of(view, f);
    let d = bands::whole_of(line.exact, f.l, f.s);
    let s = Stroke {
        view,
        line,
        frame: f,
        layout,
        d,
    };
    let ink = palette.ink(level, d);
    let inside = columns::inside_of(layout, f, columns);
    let before = Span {
        from: columns.from,
        end: inside.from,
    };
    let behind = Span {
        from: inside.end,
        end: columns.end,
    };
    let lower = draw_walk(page, ink, s, before, step_clipped);
    let inner = draw_walk(page, ink, s, inside, step_inside);
    let upper = draw_walk(page, ink, s, behind, step_clipped);
    lower + inner + upper
}

// Draws a line, whose frame is worked out already, within the clip; hands back how many pixels it touched.
pub fn draw_line<P: Palette>(
    page: &mut [u8],
    palette: P,
    view: View,
    line: shapes::Line,
    f: Frame,
    level: u8,
) -> u64
    requires { Lawful view (length page.old) × Framed line f }
    ensures { Drawn view.w view.h (ink_of (P.lights palette) level (drawn_d (asShape line)))
        (in_view view (shape_on (asShape line))) page.old page.new result }
{
    let columns = columns::walk_of(view, line, f);
    if columns.is_empty() {
        return 0;
    }
    draw_columns(page, palette, view, line, f, level, columns)
}
