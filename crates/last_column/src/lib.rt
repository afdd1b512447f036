// How far a line goes: the last column in which it touches a pixel.
#![tactic(auto)]

ghost use Rattle.std.specs.Prelude.{◌≡◌};
ghost use Rattle.limits.specs.Refusal.{told, numbered};
ghost use Rattle.last_column.specs.Column.{column_refusal, column_reach};

use bands::frame_of;
use columns::columns_of;
use draw::view_of;
use limits::{Refusal, check_clip, check_line, check_size};
use numbers::ORIGIN;
use shapes::{Clip, Line};

// Tries a line whose last column is asked for.
#[tactic(auto, unfolding(crate::specs::Column::column_refusal))]
fn check_column(w: u16, h: u16, clip: Clip, line: Line) -> Result<(), Refusal>
    ensures { told result ≡ column_refusal w h clip line }
{
    check_size(w, h)?;
    check_clip(w, h, clip)?;
    check_line(line)
}

// The last column of a line, counted from its first end, in which it touches a pixel inside a clip on a page of w by h, if there is one. No
// page and no lights are lent.
pub fn last_column(w: u16, h: u16, clip: Clip, line: Line) -> Result<Option<u64>, Refusal>
    ensures { numbered result ≡ column_reach w h clip line }
{
    check_column(w, h, clip, line)?;
    let f = frame_of(line);
    let span = columns_of(view_of(w, h, clip), line, f);
    if span.is_empty() {
        return Ok(None);
    }
    Ok(Some(span.end as u64 + (ORIGIN - 1) - f.x))
}
