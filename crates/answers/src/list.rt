// A whole list: checked, drawn or squeezed.
ghost use Rattle.std.specs.Prelude.{◌≡◌};
ghost use Rattle.lists.specs.Refused.{numbered_at};
ghost use Rattle.drawing.specs.Outcome.{numbered_outcome};
ghost use Rattle.answers.specs.List.{check_answer, squeeze_answered, list_answered};

use crate::number_of;
use arguments::GivenBasis;
use drawing::{Outcome, Size};
use lists::RefusedAt;
use lists::check::Accepted;
use shapes::{Basis, PLAYERS};

// The header of a list and the ceiling of its touches where refusal is 0; else the place of the refusal, and zeros.
#[repr(C)]
#[derive(Clone, Copy)]
pub struct CheckAnswer {
    pub refusal: u32,
    pub place: usize,
    pub basis: GivenBasis,
    pub background: u8,
    pub ceiling: u64,
}

impl From<Result<Accepted, RefusedAt>> for CheckAnswer {
    ghost from_gives = { λ checked answer. answer ≡ check_answer (numbered_at checked) };

    fn from(checked: Result<Accepted, RefusedAt>) -> CheckAnswer {
        match checked {
            Ok(Accepted { header, ceiling }) => CheckAnswer {
                refusal: 0,
                place: 0,
                basis: Basis::from(header).into(),
                background: header.background,
                ceiling,
            },
            Err(RefusedAt { refusal, place }) => CheckAnswer {
                refusal: number_of(refusal),
                place,
                basis: GivenBasis {
                    version: 0,
                    w: 0,
                    h: 0,
                },
                background: 0,
                ceiling: 0,
            },
        }
    }
}

// W, H and how many pixels the shapes of each player touched where refusal is 0; else the place of the refusal, and zeros.
#[repr(C)]
#[derive(Clone, Copy)]
pub struct ListAnswer {
    pub refusal: u32,
    pub place: usize,
    pub w: u32,
    pub h: u32,
    pub touched: [u64; PLAYERS],
}

impl From<Outcome> for ListAnswer {
    ghost from_gives = { λ outcome answer. answer ≡ list_answered (numbered_outcome outcome) };

    #[tactic(auto, unfolding(crate::specs::List::list_answered))]
    fn from(outcome: Outcome) -> ListAnswer {
        let Outcome { answer, touched } = outcome;
        match answer {
            Ok(Size { w, h }) => ListAnswer {
                refusal: 0,
                place: 0,
                w: w.into(),
                h: h.into(),
                touched,
            },
            Err(RefusedAt { refusal, place }) => ListAnswer {
                refusal: number_of(refusal),
                place,
                w: 0,
                h: 0,
                touched,
            },
        }
    }
}

// How many bytes the squeezed list has where refusal is 0; else the place of the refusal, and 0.
#[repr(C)]
#[derive(Clone, Copy)]
pub struct SqueezeAnswer {
    pub refusal: u32,
    pub place: usize,
    pub length: usize,
}

impl From<Result<usize, RefusedAt>> for SqueezeAnswer {
    ghost from_gives = { λ squeezed answer. answer ≡ squeeze_answered (numbered_at squeezed) };

    fn from(squeezed: Result<usize, RefusedAt>) -> SqueezeAnswer {
        match squeezed {
            Ok(length) => SqueezeAnswer {
                refusal: 0,
                place: 0,
                length,
            },
            Err(RefusedAt { refusal, place }) => SqueezeAnswer {
                refusal: number_of(refusal),
                place,
                length: 0,
            },
        }
    }
}
