// The heights of a circle and the chord rule.
#![tactic(auto)]

ghost use Rattle.std.specs.Prelude.{◌≡◌, ℕ, ◌+◌, ◌*◌, ◌-◌, ◌≤◌, ◌<◌, min, length, get_or, ◌&&◌, leb, ltb};
ghost use Rattle.numbers.specs.inner.Offset.{offset_most};
ghost use Rattle.limits.specs.Limits.{radius_most};
ghost use Rattle.chords.specs.Circle.{half_root, height_of, chords};
ghost use Rattle.chords.specs.inner.Circle.{height_most, apart, Held, Narrowed};

// The whole number nearest to half the square root of m, searched downwards from y.
fn half_root(y: u64, m: u64) -> u64
    requires { y ≤ height_most }
    ensures { result ≡ half_root y m }
{
    for t in (0..y).rev() {
        let odd = 2 * t + 1;
        if odd * odd <= m {
            return t + 1;
        }
    }
    0
}

// t, brought down to near the root of quarter by one turn of Newton's rule, rounded.
fn nearer(t: u64, quarter: u64) -> u64
    requires { t ≤ height_most }
    ensures { result ≤ t }
{
    t - (t * t + t).saturating_sub(quarter) / (2 * t + 1)
}

// Half the root of m, searched downwards from y less the last step, which is not too low since heights fall faster and faster, brought
// nearer. Any start would do that is not too low: it is tested, and y, above every later height, stands in for one that is.
fn searched(y: u64, step: u64, m: u64) -> u64
    requires { (y ≤ height_most) × (m < (2 * y + 1) * (2 * y + 1)) }
    ensures { result ≡ half_root y m }
{
    let t = nearer(y.saturating_sub(step), m / 4);
    let odd = 2 * t + 1;
    if m < odd * odd {
        return half_root(t, m);
    }
    half_root(y, m)
}

// 1 where half the root of m is u or less, else 0: a sum of such needs no branch.
fn passed(u: u64, m: u64) -> u64
    requires { u ≤ height_most }
    ensures { result ≤ 1 }
{
    let odd = 2 * u + 1;
    u64::from(m < odd * odd)
}

// One less than the height behind y, by the last step: where heights fall steadily, the next step is 1 shorter, the same, or 1 or 2 longer.
// Any number would do: it is tested.
fn guess(y: u64, step: u64, m: u64) -> u64
    requires { y ≤ height_most }
    ensures { result ≤ y }
{
    let u = y.saturating_sub(step);
    if u < 3 {
        return u;
    }
    u - (passed(u, m) + passed(u - 1, m) + passed(u - 2, m))
}

// Whether u + 1 is half the root of m.
fn is_next(u: u64, m: u64) -> bool
    requires { u ≤ height_most }
    ensures { result ≡ (leb ((2 * u + 1) * (2 * u + 1)) m && ltb m ((2 * u + 3) * (2 * u + 3))) }
{
    let odd = 2 * u + 1;
    let next = 2 * u + 3;
    (odd * odd..next * next).contains(&m)
}

// Circles up to this radius have heights that fall too fast for a guess by the last step.
const STEEP_MOST: u64 = 64;

// The height behind y, half the root of m: guessed, and searched for where the guess fails.
fn next_height(radius: u64, y: u64, step: u64, m: u64) -> u64
    requires { (y ≤ height_most) × (m < (2 * y + 1) * (2 * y + 1)) }
    ensures { result ≡ half_root y m }
{
    if radius <= STEEP_MOST {
        return searched(y, step, m);
    }
    let u = guess(y, step, m);
    if is_next(u, m) {
        return u + 1;
    }
    searched(y, step, m)
}

// The greatest radius.
const RADIUS_MOST: usize = limits::RADIUS_MOST as usize;

// How many heights are held: those at 0 to one above the greatest radius.
pub const HEIGHTS: usize = RADIUS_MOST + 2;

// Fills in the heights of the circle of a radius, in an array of zeros.
pub fn heights(hs: &mut [u32], radius: u64)
    requires { (radius ≤ radius_most) × (radius + 2 ≤ length hs.old) × ((k : ℕ) → get_or hs.old k 0 ≡ 0) }
    ensures { Held radius hs.old hs.new }
{
    let mut y = 256 * radius;
    let mut step = 0;
    for k in 0..radius {
        let m = 262144 * (radius * radius - k * k);
        let next = next_height(radius, y, step, m);
        hs[k as usize] = next as u32;
        step = y - next;
        y = next;
    }
}

// What a root is known to lie between: at least low, and below high.
#[derive(Clone, Copy)]
struct Bracket {
    low: u64,
    high: u64,
}

impl Bracket {
    // Its half with the root.
    fn halved(self, m: u64) -> Bracket
        requires { (self.low + 1 < self.high) × (self.high ≤ height_most + 1) }
        ensures { Narrowed self.low self.high m result.low result.high }
    {
        let middle = (self.low + self.high) / 2;
        let odd = 2 * middle - 1;
        if odd * odd <= m {
            Bracket {
                low: middle,
                high: self.high,
            }
        } else {
            Bracket {
                low: self.low,
                high: middle,
            }
        }
    }
}

// One height of the circle of a radius.
fn height_at(radius: u64, k: u64) -> u64
    requires { radius ≤ radius_most }
    ensures { result ≡ height_of radius k }
{
    if radius <= k {
        return 0;
    }
    let m = 262144 * (radius * radius - k * k);
    let mut bracket = Bracket {
        low: 0,
        high: 256 * radius + 1,
    };
    // no index is counted: a bracket is halved
    while bracket.low + 1 < bracket.high {
        bracket = bracket.halved(m);
    }
    bracket.low
}

// How far a pixel is from the centre, by their offsets.
pub fn apart_of(c: u64, x: u64) -> u64
    ensures { result ≡ apart c x }
{
    if c <= x { x - c } else { c - x - 1 }
}

// A height less 256·n, brought into 0 to 256.
pub fn chord_of(height: u64, n: u64) -> u64
    requires { n ≤ 65535 }
    ensures { (result ≡ min (height - 256 * n) 256) × (result ≤ 256) }
{
    height.saturating_sub(256 * n).min(256)
}

// The coverage over 512 by a disc, at the distances a and b from its centre.
pub fn chords_of(radius: u64, a: u64, b: u64) -> u64
    requires { (radius ≤ radius_most) × (a ≤ offset_most + 1) × (b ≤ offset_most + 1) }
    ensures { (result ≡ chords (height_of radius) a b) × (result ≤ 512) }
{
    let near = a.min(b);
    let far = a.max(b);
    chord_of(height_at(radius, near), far) + chord_of(height_at(radius, near + 1), far)
}
