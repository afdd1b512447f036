// One shape on a lent page.
ghost use Rattle.std.specs.Prelude.{◌≡◌, length};
ghost use Rattle.limits.specs.Refusal.{numbered};
ghost use Rattle.arguments.specs.Taken.{taken_of};
ghost use Rattle.answers.specs.Shape.{drawn};
ghost use Rattle.greystroke.specs.Shape.{shape_drawn, page_drawn};

use answers::shape::DrawAnswer;
use arguments::{GivenClip, GivenShape, unsigned};
use draw::draw_shape;
use limits::Refusal;
use shapes::Clip;

// Each kind is drawn as what it is, so that no shape has to be told apart again below.
fn draw(
    page: &mut [u8],
    w: u32,
    h: u32,
    lights: &[u16],
    clip: GivenClip,
    level: u8,
    shape: GivenShape,
) -> Result<u64, Refusal>
    ensures value { numbered result ≡ shape_drawn w h (length page.old) lights.now clip (taken_of shape) }
    ensures page_after { page.new ≡ page_drawn w h lights.now clip level (taken_of shape) page.old }
{
    let w = unsigned(w);
    let h = unsigned(h);
    let kept = Clip::from(clip);
    let kind = shape.kind;
    match kind {
        3 | 4 => draw_shape(page, w, h, lights, kept, level, shape.line(kind == 3)),
        5 | 8 => draw_shape(page, w, h, lights, kept, level, shape.disc(kind == 8)),
        6 | 9 => draw_shape(page, w, h, lights, kept, level, shape.ring(kind == 9)),
        10 => draw_shape(page, w, h, lights, kept, level, shape.triangle()),
        _ => Err(Refusal::Kind),
    }
}

// Draws a shape inside a clip in 256 lights.
#[unsafe(no_mangle)]
pub extern "C" fn greystroke_draw_shape(
    page: &mut [u8],
    w: u32,
    h: u32,
    lights: &[u16],
    clip: GivenClip,
    level: u8,
    shape: GivenShape,
) -> DrawAnswer
    ensures value { result ≡ drawn (shape_drawn w h (length page.old) lights.now clip (taken_of shape)) }
    ensures page_after { page.new ≡ page_drawn w h lights.now clip level (taken_of shape) page.old }
{
    draw(page, w, h, lights, clip, level, shape).into()
}
