// What is told of one shape: its coverage of a pixel, the pixels that it touched, the last column of a line.
ghost use Rattle.std.specs.Prelude.{◌≡◌};
ghost use Rattle.limits.specs.Refusal.{numbered};
ghost use Rattle.answers.specs.Shape.{answered, drawn, reached};

use crate::number_of;
use coverage::Ratio;
use limits::Refusal;

// n over d where refusal is 0; else n and d are 0.
#[repr(C)]
#[derive(Clone, Copy)]
pub struct CoverageAnswer {
    pub refusal: u32,
    pub place: usize,
    pub n: u64,
    pub d: u64,
}

impl From<Result<Ratio, Refusal>> for CoverageAnswer {
    ghost from_gives = { λ covered answer. answer ≡ answered (numbered covered) };

    fn from(covered: Result<Ratio, Refusal>) -> CoverageAnswer {
        match covered {
            Ok(ratio) => CoverageAnswer {
                refusal: 0,
                place: 0,
                n: ratio.n,
                d: ratio.d,
            },
            Err(refusal) => CoverageAnswer {
                refusal: number_of(refusal),
                place: 0,
                n: 0,
                d: 0,
            },
        }
    }
}

// How many pixels were touched where refusal is 0; else 0.
#[repr(C)]
#[derive(Clone, Copy)]
pub struct DrawAnswer {
    pub refusal: u32,
    pub place: usize,
    pub touched: u64,
}

impl From<Result<u64, Refusal>> for DrawAnswer {
    ghost from_gives = { λ touched answer. answer ≡ drawn (numbered touched) };

    fn from(touched: Result<u64, Refusal>) -> DrawAnswer {
        match touched {
            Ok(touched) => DrawAnswer {
                refusal: 0,
                place: 0,
                touched,
            },
            Err(refusal) => DrawAnswer {
                refusal: number_of(refusal),
                place: 0,
                touched: 0,
            },
        }
    }
}

// Where refusal is 0, found is 1 and the column is the last one, or both are 0; else both are 0.
#[repr(C)]
#[derive(Clone, Copy)]
pub struct ColumnAnswer {
    pub refusal: u32,
    pub place: usize,
    pub found: u32,
    pub column: u64,
}

impl From<Result<Option<u64>, Refusal>> for ColumnAnswer {
    ghost from_gives = { λ last answer. answer ≡ reached (numbered last) };

    fn from(last: Result<Option<u64>, Refusal>) -> ColumnAnswer {
        match last {
            Ok(Some(column)) => ColumnAnswer {
                refusal: 0,
                place: 0,
                found: 1,
                column,
            },
            Ok(None) => ColumnAnswer {
                refusal: 0,
                place: 0,
                found: 0,
                column: 0,
            },
            Err(refusal) => ColumnAnswer {
                refusal: number_of(refusal),
                place: 0,
                found: 0,
                column: 0,
            },
        }
    }
}
