// The last column of a line in which it touches a pixel.
ghost use Rattle.std.specs.Prelude.{◌≡◌};
ghost use Rattle.limits.specs.Refusal.{numbered};
ghost use Rattle.answers.specs.Shape.{reached};
ghost use Rattle.greystroke.specs.Shape.{column_asked};

use answers::shape::ColumnAnswer;
use arguments::{GivenClip, GivenShape, unsigned};
use limits::Refusal;

// Only a line has columns.
#[tactic(auto, unfolding(crate::specs::Shape::column_asked))]
fn ask(w: u32, h: u32, clip: GivenClip, shape: GivenShape) -> Result<Option<u64>, Refusal>
    ensures { numbered result ≡ column_asked w h clip shape }
{
    let kind = shape.kind;
    match kind {
        3 | 4 => last_column::last_column(
            unsigned(w),
            unsigned(h),
            clip.into(),
            shape.line(kind == 3),
        ),
        _ => Err(Refusal::Kind),
    }
}

// The last column of a line, counted from its first end, in which it touches a pixel inside a clip on a page of w by h.
#[unsafe(no_mangle)]
pub extern "C" fn greystroke_last_column(
    w: u32,
    h: u32,
    clip: GivenClip,
    shape: GivenShape,
) -> ColumnAnswer
    ensures { result ≡ reached (column_asked w h clip shape) }
{
    ask(w, h, clip, shape).into()
}
