// Drawing lists: the check of a whole list.
#![tactic(auto)]

ghost use Rattle.std.specs.Prelude.{◌≡◌};

pub mod check; // check.rt: the check

use limits::Refusal;

// Why a list is refused, and at which byte.
#[derive(Clone, Copy, Debug, PartialEq, Eq)]
pub struct RefusedAt {
    pub refusal: Refusal,
    pub place: usize,
}

// What is refused of a header, of a page or of its lights is told at the first byte.
impl From<Refusal> for RefusedAt {
    ghost from_gives = { λ refusal refused. refused ≡ record { refusal = refusal; place = 0 } };

    fn from(refusal: Refusal) -> RefusedAt {
        RefusedAt { refusal, place: 0 }
    }
}
