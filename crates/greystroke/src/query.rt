// Coverage queries.
ghost use Rattle.std.specs.Prelude.{◌≡◌};
ghost use Rattle.arguments.specs.Taken.{taken_of};
ghost use Rattle.answers.specs.Shape.{answered};
ghost use Rattle.greystroke.specs.Shape.{coverage_asked};

use answers::shape::CoverageAnswer;
use arguments::{GivenShape, coordinate};
use limits::Refusal;

// The coverage of pixel (x, y) by a shape.
#[tactic(auto, unfolding(crate::specs::Shape::coverage_asked))]
#[unsafe(no_mangle)]
pub extern "C" fn greystroke_coverage(shape: GivenShape, x: i32, y: i32) -> CoverageAnswer
    ensures { result ≡ answered (coverage_asked (taken_of shape) x y) }
{
    match arguments::taken_of(shape) {
        Some(known) => coverage::coverage(known, coordinate(x), coordinate(y)).into(),
        None => Err(Refusal::Kind).into(),
    }
}
