// Blending codes as they stand. In lights at even steps that comes to the same as blending in light.
ghost use Rattle.std.specs.Prelude.{◌≡◌, ◌-◌, ◌*◌, ◌^◌, ◌/◌, ◌≤◌, ◌<◌};
ghost use Rattle.blending.specs.CodeBlend.{code_blend};
ghost use Rattle.blending.specs.inner.Quotient.{Coverage, Reciprocal, Dividend};

// The reciprocal of the blends of codes over d.
pub fn reciprocal(d: u64) -> u64
    requires { (0 < d) × (d ≤ 2 ^ 30) }
    ensures { Reciprocal d result }
{
    36028797018963968 / d + 1
}

// x over d by a reciprocal m, about 2^56 over d. The quotient that m gives is tested, so any m that fits will do.
fn quotient(x: u64, d: u64, m: u64) -> u64
    requires { (0 < d) × (d ≤ 2 ^ 31) × (x * m < 2 ^ 64) }
    ensures { result ≡ x / d }
{
    let q = x * m / 72057594037927936;
    let p = q * d;
    if p <= x {
        if x - p < d {
            return q;
        }
    }
    x / d
}

// x over d by a reciprocal m that is near enough for x: it needs no test.
fn near_quotient(x: u64, d: u64, m: u64) -> u64
    requires { (0 < d) × (x * m < 2 ^ 64) × (2 ^ 56 ≤ m * d) × (x * (m * d - 2 ^ 56) < 2 ^ 56) }
    ensures { result ≡ x / d }
{
    x * m / 72057594037927936
}

// What a blend divides by 2 d.
fn dividend(u: u8, v: u8, n: u64, d: u64) -> u64
    requires { Coverage n d }
    ensures { Dividend u v n d result }
{
    2 * ((u as u64) * (d - n) + (v as u64) * n) + d
}

// Code v over code u at coverage n over d, by the reciprocal of d: up to 2^23 that is near enough.
pub fn blend_code(u: u8, v: u8, n: u64, d: u64, m: u64) -> u8
    requires { Coverage n d × Reciprocal d m }
    ensures { result ≡ code_blend u v n d }
{
    let x = dividend(u, v, n, d);
    if d <= 8388608 {
        near_quotient(x, 2 * d, m) as u8
    } else {
        quotient(x, 2 * d, m) as u8
    }
}

// Code v over code u at coverage n over 512, whose quotient needs no reciprocal.
pub fn blend_code_512(u: u8, v: u8, n: u64) -> u8
    requires { n ≤ 512 }
    ensures { result ≡ code_blend u v n 512 }
{
    (dividend(u, v, n, 512) / 1024) as u8
}
