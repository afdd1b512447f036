// The frame of a line, and what the band around it covers in the rows of a column, under the exact and the approximate rule.
#![tactic(auto)]

ghost use Rattle.std.specs.Prelude.{◌≡◌, ◌+◌, ◌*◌, ◌-◌, ◌≤◌, ◌<◌};
ghost use Rattle.std.proofs.Math.IntN.{sub_ℕ};
ghost use Rattle.bands.specs.Line.{row_of, rest_of};
ghost use Rattle.bands.specs.inner.Rows.{rise_of, corner_of, rows_of, whole_of, at_row, Reaching};
ghost use Rattle.bands.specs.inner.Frame.{row_origin, row_at, exchanged_by, in_order, Rising, Framed};
ghost use Rattle.numbers.specs.inner.Offset.{offset_most};
ghost use Rattle.limits.specs.Limits.{shape_refusal};
ghost use Rattle.shapes.specs.declared.Shape.TheVariants.{Line as asShape};

// Row 0 of a frame is counted as this, so that no row is negative.
pub const ROW_ORIGIN: u64 = 16384;

// A line in its own frame: the spans l and s, whether x and y are exchanged, whether rows are mirrored, and the offsets of the
// first end after the exchange.
#[derive(Clone, Copy)]
pub struct Frame {
    pub l: u64,
    pub s: u64,
    pub steep: bool,
    pub falls: bool,
    pub x: u64,
    pub y: u64,
}

impl Frame {
    // The row of a pixel whose offset across the longer span is b.
    pub fn row(self, b: u64) -> u64
        requires { (self.y ≤ offset_most) × (b ≤ offset_most) }
        ensures { (result ≡ row_at self b) × (result ≤ 2 * row_origin) }
    {
        if self.falls {
            self.y + (ROW_ORIGIN - 1) - b
        } else {
            b + ROW_ORIGIN - self.y
        }
    }
}

// What the three rows of a column have.
#[derive(Clone, Copy)]
pub struct Rows {
    pub upper: u64,
    pub middle: u64,
    pub lower: u64,
}

impl Rows {
    // What the row g − base above row q has.
    pub fn at(self, g: u64, base: u64) -> u64
        requires { g ≤ 2 * row_origin }
        ensures { result ≡ at_row self (sub_ℕ g base) }
    {
        if g + 1 < base {
            return 0;
        }
        match g + 1 - base {
            0 => self.lower,
            1 => self.middle,
            2 => self.upper,
            _ => 0,
        }
    }
}

// The row q and the rest r of a column.
#[derive(Clone, Copy)]
pub struct Crossing {
    pub q: u64,
    pub r: u64,
}

// The ends, with x and y exchanged where y is the longer.
fn exchanged(steep: bool, e: shapes::Ends) -> shapes::Ends
    ensures { result ≡ exchanged_by steep e }
{
    if steep {
        shapes::Ends {
            x0: e.y0,
            y0: e.x0,
            x1: e.y1,
            y1: e.x1,
        }
    } else {
        e
    }
}

// The ends in the order in which x rises.
fn ordered(e: shapes::Ends) -> shapes::Ends
    ensures { result ≡ in_order e }
{
    if e.x0 <= e.x1 {
        e
    } else {
        shapes::Ends {
            x0: e.x1,
            y0: e.y1,
            x1: e.x0,
            y1: e.y0,
        }
    }
}

// The frame of ends in which x rises.
fn rising_frame(steep: bool, e: shapes::Ends) -> Frame
    requires { e.x0 ≤ e.x1 }
    ensures { Rising steep e result }
{
    Frame {
        l: e.x1 - e.x0,
        s: e.y0.abs_diff(e.y1),
        steep,
        falls: e.y1 < e.y0,
        x: e.x0,
        y: e.y0,
    }
}

// The frame of a line. Equal spans: x counts as the longer.
pub fn frame_of(line: shapes::Line) -> Frame
    requires { shape_refusal (asShape line) ≡ 0 }
    ensures { Framed line result }
{
    let e = shapes::Ends::from(line);
    let steep = e.x0.abs_diff(e.x1) < e.y0.abs_diff(e.y1);
    rising_frame(steep, ordered(exchanged(steep, e)))
}

// The row and the rest of column i.
pub fn crossing_at(l: u64, s: u64, i: u64) -> Crossing
    requires { (l ≤ offset_most) × (s ≤ l) × (i < l) }
    ensures { (result.q ≡ row_of l s i) × (result.r ≡ rest_of l s i) × (result.q ≤ l) × (result.r < 2 * l) }
{
    if i == 0 {
        return Crossing { q: 0, r: l };
    }
    let u = l + 2 * s * i;
    Crossing {
        q: u / (2 * l),
        r: u % (2 * l),
    }
}

// The first of the columns from one to before another at which the band's upper edge, l + 2·s·i, has come to a rise, or that other. The
// edge only rises.
pub fn column_reaching(l: u64, s: u64, rise: u64, from: u64, end: u64) -> u64
    requires { (l ≤ offset_most) × (s ≤ l) × (from ≤ end) × (end ≤ l) }
    ensures { Reaching l s rise from end result }
{
    if rise <= l + 2 * s * from {
        return from;
    }
    if l + 2 * s * end < rise {
        return end;
    }
    (rise - l).div_ceil(2 * s)
}

// What the middle row of a column has whose upper row has nothing.
fn rise(exact: bool, s: u64, r: u64) -> u64
    requires { (s ≤ offset_most) × (r ≤ 2 * offset_most) }
    ensures { result ≡ rise_of exact s r }
{
    match (exact, s) {
        (true, 0) => 1,
        (true, _) => 4 * s * (r + s),
        (false, _) => 2 * (r + s),
    }
}

// What an outer row has that the band covers to the height t at one side of the column.
fn corner(exact: bool, t: u64) -> u64
    requires { t ≤ 2 * offset_most }
    ensures { result ≡ corner_of exact t }
{
    if exact { t * t } else { t }
}

// The rows of a column that the band crosses in two rows, t at most 0.
pub fn flat_rows(exact: bool, l: u64, s: u64, r: u64, d: u64) -> Rows
    requires { (l ≤ offset_most) × (s ≤ l) × (r < 2 * l) × (r + 2 * s ≤ 2 * l) × (d ≡ whole_of exact l s) }
    ensures { result ≡ rows_of exact l s r }
{
    let n = rise(exact, s, r);
    Rows {
        upper: 0,
        middle: n,
        lower: d - n,
    }
}

// The rows of a column that the band crosses in three rows, or in two with t = 0.
pub fn crossed_rows(exact: bool, l: u64, s: u64, r: u64, d: u64) -> Rows
    requires { (l ≤ offset_most) × (s ≤ l) × (r < 2 * l) × (2 * l ≤ r + 2 * s) × (d ≡ whole_of exact l s) }
    ensures { result ≡ rows_of exact l s r }
{
    let upper = corner(exact, r + 2 * s - 2 * l);
    let lower = corner(exact, 2 * l - r);
    Rows {
        upper,
        middle: d - upper - lower,
        lower,
    }
}

// The rows of a column under one of the rules.
pub fn rows_of(exact: bool, l: u64, s: u64, r: u64, d: u64) -> Rows
    requires { (l ≤ offset_most) × (s ≤ l) × (r < 2 * l) × (d ≡ whole_of exact l s) }
    ensures { result ≡ rows_of exact l s r }
{
    if r + 2 * s < 2 * l {
        flat_rows(exact, l, s, r, d)
    } else {
        crossed_rows(exact, l, s, r, d)
    }
}

// What the rows add up to, the denominator of the coverage.
pub fn whole_of(exact: bool, l: u64, s: u64) -> u64
    requires { (l ≤ offset_most) × (s ≤ l) }
    ensures { result ≡ whole_of exact l s }
{
    if exact { (8 * l * s).max(2) } else { 4 * l }
}
