// What a walk asks of a kind.
ghost use Rattle.std.specs.Prelude.{◌≡◌, ℕ, ◌<◌, get_or};
ghost use Rattle.format.specs.Format.{kind_size};
ghost use Rattle.squeezed.specs.Squeeze.{same_clip};
ghost use Rattle.squeeze.specs.inner.Walk.{is_setting};

use format::kind_size;
use shapes::Clip;

// How many kinds there are.
const KINDS: usize = 11;

// Whether it is that of a setting, by the numbers: by Kind was tried, and slower.
#[tactic(auto, unfolding(crate::specs::inner::Walk::is_setting))]
pub(crate) fn is_setting(kind: u8) -> bool
    ensures { result ≡ is_setting kind }
{
    matches!(kind, 1 | 2 | 7)
}

// Whether two clips are the same; they are taken by value, which keeps each in one register.
#[tactic(auto, unfolding(squeezed::specs::Squeeze::same_clip))]
pub(crate) fn same_clip(a: Clip, b: Clip) -> bool
    ensures { result ≡ same_clip a b }
{
    a == b
}

// The sizes of all kinds, as a table: a load for each shape was measured to be faster than a jump by its kind.
pub(crate) fn kind_sizes() -> [usize; KINDS]
    ensures { (k : ℕ) → 0 < kind_size k → get_or result k 0 ≡ kind_size k }
{
    std::array::from_fn(|kind| kind_size(kind as u8))
}
