// One shape on a lent page.
#![tactic(auto)]

pub mod figure; // figure.rt: what is drawn

ghost use Rattle.std.specs.Prelude.{◌≡◌, List, ℕ, IfOk, length};
ghost use Rattle.shapes.specs.declared.Shape.{Shape};
ghost use Rattle.limits.specs.Limits.{shape_refusal};
ghost use Rattle.limits.specs.Refusal.{told, numbered};
ghost use Rattle.coverage.specs.Coverage.{drawn_d};
ghost use Rattle.coverage.specs.inner.OnPage.{shape_on};
ghost use Rattle.lights.specs.inner.Fit.{Fit, Spaced};
ghost use Rattle.page.specs.inner.Ink.{ink_of};
ghost use Rattle.page.specs.inner.Paint.{Lawful, DrawnIn};
ghost use Rattle.draw.specs.Draw.{draw_refusal, shape_outcome, shape_page};
ghost use Rattle.touches.specs.inner.View.{view_of};

use figure::Figure;
use lights::fit::{Steps, steps_of};
use lights::palette::{PALETTE, fill_palette};
use limits::Refusal;
use page::{EvenLights, UnevenLights, View};
use shapes::Clip;

// Tries a shape on a page of size bytes, in lights at these steps; own is what trying the shape told. Hands back the steps.
#[tactic(auto, using(std::proofs::lemmas::Bool::Decides::nat_tests), unfolding(crate::specs::Draw::draw_refusal))]
fn check_draw(
    w: u16,
    h: u16,
    size: usize,
    steps: Option<Steps>,
    clip: Clip,
    own: Result<(), Refusal>,
) -> Result<Steps, Refusal>
    ensures value { (lights : List ℕ) (shape : Shape) → Spaced lights steps → told own ≡ shape_refusal shape → told result ≡ draw_refusal w h size lights clip shape }
    ensures steps { IfOk result (λ s. steps ≡ Some s) }
{
    limits::check_size(w, h)?;
    if size < usize::from(w) * usize::from(h) {
        return Err(Refusal::Room);
    }
    let known = steps.ok_or(Refusal::Lights)?;
    limits::check_clip(w, h, clip)?;
    own?;
    Ok(known)
}

// Draws a lawful shape in lights that are not at even steps. It stands apart, because its palette would grow the stack frame of others.
fn draw_uneven<F: Figure>(page: &mut [u8], lights: &[u16], view: View, level: u8, figure: F) -> u64
    requires { Fit lights.now × Lawful view (length page.old) × (shape_refusal (F.shape figure) ≡ 0) }
    ensures { DrawnIn view (ink_of lights.now level (drawn_d (F.shape figure))) (shape_on (F.shape figure)) page.old page.new result }
{
    let mut palette = [0u16; PALETTE];
    fill_palette(&mut palette, lights);
    figure.draw(page, UnevenLights { palette: &palette }, view, level)
}

// A page's size and a clip on it, as the drawing functions take them.
pub fn view_of(w: u16, h: u16, clip: Clip) -> View
    ensures { result ≡ view_of w h clip }
{
    View {
        w: usize::from(w),
        h: usize::from(h),
        x0: usize::from(clip.x0),
        y0: usize::from(clip.y0),
        x1: usize::from(clip.x1),
        y1: usize::from(clip.y1),
    }
}

// Draws a shape inside a clip on a page of w by h in 256 lights, or refuses it and leaves the page as it was; tells how many pixels it touched.
pub fn draw_shape<F: Figure>(
    page: &mut [u8],
    w: u16,
    h: u16,
    lights: &[u16],
    clip: Clip,
    level: u8,
    figure: F,
) -> Result<u64, Refusal>
    ensures value { numbered result ≡ shape_outcome w h (length page.old) lights.now clip (F.shape figure) }
    ensures page_after { page.new ≡ shape_page w h lights.now clip level (F.shape figure) page.old }
{
    let steps = check_draw(w, h, page.len(), steps_of(lights), clip, figure.check())?;
    let view = view_of(w, h, clip);
    match steps {
        Steps::Even => Ok(figure.draw(page, EvenLights { lights }, view, level)),
        Steps::Uneven => Ok(draw_uneven(page, lights, view, level, figure)),
    }
}
