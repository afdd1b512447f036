// A whole list on a lent page.
ghost use Rattle.std.specs.Prelude.{◌≡◌};
ghost use Rattle.drawing.specs.Claim.{Claim, list_outcome};
ghost use Rattle.answers.specs.List.{list_answered};

use answers::list::ListAnswer;

// Draws a list in 256 lights.
#[unsafe(no_mangle)]
pub extern "C" fn greystroke_draw_list(page: &mut [u8], lights: &[u16], list: &[u8]) -> ListAnswer
    ensures value { result ≡ list_answered (list_outcome lights.now list.now page.old) }
    ensures claim { Claim lights.now list.now page.old
        (list_outcome lights.now list.now page.old) page.new }
{
    drawing::draw_list(page, lights, list).into()
}
