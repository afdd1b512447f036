// The area of a pixel under a straight edge that is at most 127 columns wide and 127 rows high.
#![tactic(auto)]

ghost use Rattle.std.specs.Prelude.{◌≡◌, ◌*◌, ◌≤◌};
ghost use Rattle.numbers.specs.inner.Order.{dist};
ghost use Rattle.numbers.specs.inner.Offset.{offset_most};
ghost use Rattle.edges.specs.Edge.{by_zero, under_d};
ghost use Rattle.edges.specs.inner.Strip.{strip, under_at, span_most, height_most, whole_most};

// Twice the area between 0 and p under a height that is brought into 0 to h.
fn strip_of(h: u64, p: u64) -> u64
    requires { (h ≤ span_most) × (p ≤ height_most) }
    ensures { result ≡ strip h p }
{
    let inside = p.min(h);
    inside * (2 * p - inside)
}

// The area under an edge in row z; it is over whole_of(h, k), where it is k higher or lower at its right side.
pub fn under_at(h: u64, from: u64, to: u64, z: u64) -> u64
    requires { (h ≤ span_most) × (from ≤ height_most) × (to ≤ height_most) × (z ≤ offset_most) × (dist from to ≤ span_most) }
    ensures { (result ≡ under_at h from to z) × (result ≤ whole_most) }
{
    let floor = h * z;
    let left = from.saturating_sub(floor);
    if from == to {
        return left.min(h);
    }
    let right = to.saturating_sub(floor);
    strip_of(h, right).abs_diff(strip_of(h, left))
}

// What the areas under an edge of width l and height k are over; 1 for an upright one, which has none.
pub fn whole_of(l: u64, k: u64) -> u64
    requires { (l ≤ span_most) × (k ≤ span_most) }
    ensures { (result ≡ by_zero l 1 (under_d l k)) × (result ≤ whole_most) }
{
    if l == 0 {
        return 1;
    }
    if k == 0 {
        return l;
    }
    2 * l * k
}
