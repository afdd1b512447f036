// A whole drawing list on a lent page.
#![tactic(auto)]

ghost use Rattle.std.specs.Prelude.{◌≡◌, ℕ, ◌≤◌, length};
ghost use Rattle.limits.specs.Limits.{record_refusal};
ghost use Rattle.lights.specs.inner.Fit.{Fit, Spaced};
ghost use Rattle.page.specs.inner.Paint.{Lawful};
ghost use Rattle.lists.specs.inner.Walk.{list_drawings};
ghost use Rattle.touches.specs.inner.View.{view_of};
ghost use Rattle.settings.specs.Drawing.{drawing_of};
ghost use Rattle.drawing.specs.inner.Walk.{settings_of, ShapesDrawn, ListDrawn, ListPainted, Drawable};
ghost use Rattle.drawing.specs.Claim.{Claim};
ghost use Rattle.drawing.specs.Outcome.{numbered_outcome};

use draw::figure::Figure;
use format::{HEADER_SIZE, Kind};
use lights::fit::{Steps, steps_of};
use lights::palette::{PALETTE, fill_palette};
use lists::RefusedAt;
use lists::check::{Accepted, check_tried};
use page::{EvenLights, Palette, UnevenLights};
use settings::Settings;
use shapes::{Basis, Clip, PLAYERS, Record};

// W and H of a page.
#[derive(Clone, Copy, PartialEq, Eq)]
pub struct Size {
    pub w: u16,
    pub h: u16,
}

// What drawing a list answers, and how many pixels the shapes of each player touched: none after a refusal.
#[derive(Clone, Copy)]
pub struct Outcome {
    pub answer: Result<Size, RefusedAt>,
    pub touched: [u64; PLAYERS],
}

// Draws a record, if it is a shape; hands back how many pixels it touched, whoever owns it.
fn draw_record<P: Palette>(
    page: &mut [u8],
    palette: P,
    basis: Basis,
    clip: Clip,
    level: u8,
    rec: Record,
) -> u64
    requires { Lawful (view_of basis.w basis.h clip) (length page.old) × (record_refusal basis rec ≡ 0) }
    ensures { ((player : ℕ) → ShapesDrawn (P.lights palette) basis (drawing_of (settings_of clip level player) rec) page.old page.new result) × (result ≤ 1048576) × (level ≤ 255) }
{
    match rec {
        Record::Setting(_) => 0,
        Record::Shape(shape) => {
            shape.draw(page, palette, draw::view_of(basis.w, basis.h, clip), level)
        }
        Record::End => 0,
    }
}

// Draws the records of a list one after the other; hands back how many pixels those of each player touched.
fn draw_records<P: Palette>(
    page: &mut [u8],
    palette: P,
    list: &[u8],
    basis: Basis,
) -> [u64; PLAYERS]
    requires { Drawable list.now basis (length page.old) }
    ensures { ListDrawn (P.lights palette) basis (list_drawings basis list.now) page.old page.new result }
{
    let mut settings = Settings::start(basis);
    let mut touched = [0u64; PLAYERS];
    let mut place = HEADER_SIZE;
    // no index is counted: a walk goes by the size of each record
    loop {
        let kind = list[place];
        if kind == u8::from(Kind::End) {
            return touched;
        }
        let rec = decoding::decode(&list[place..]);
        let player = settings.player as usize;
        let own = draw_record(page, palette, basis, settings.clip, settings.level, rec);
        touched[player] += own;
        settings.apply(rec);
        place = records::read::next_place(list, place);
    }
}

// Fills a page with the background and draws a list on it; hands back how many pixels the shapes of each player touched.
fn paint<P: Palette>(
    page: &mut [u8],
    palette: P,
    list: &[u8],
    basis: Basis,
    background: u8,
) -> [u64; PLAYERS]
    requires { Drawable list.now basis (length page.old) }
    ensures { ListPainted (P.lights palette) basis background (list_drawings basis list.now) page.old page.new result }
{
    page::fill(page, background);
    draw_records(page, palette, list, basis)
}

// The same in lights at these steps, of which those that are not at even ones get a palette.
fn paint_in(
    page: &mut [u8],
    lights: &[u16],
    steps: Steps,
    list: &[u8],
    basis: Basis,
    background: u8,
) -> [u64; PLAYERS]
    requires { Fit lights.now × Spaced lights.now (Some steps) × Drawable list.now basis (length page.old) }
    ensures { ListPainted lights.now basis background (list_drawings basis list.now) page.old page.new result }
{
    match steps {
        Steps::Even => paint(page, EvenLights { lights }, list, basis, background),
        Steps::Uneven => {
            let mut palette = [0u16; PALETTE];
            fill_palette(&mut palette, lights);
            paint(
                page,
                UnevenLights { palette: &palette },
                list,
                basis,
                background,
            )
        }
    }
}

// Draws a list on a page in 256 lights, or refuses it and leaves the page as it was. The list is checked whole before a byte of the page is
// written.
pub fn draw_list(page: &mut [u8], lights: &[u16], list: &[u8]) -> Outcome
    ensures { Claim lights.now list.now page.old (numbered_outcome result) page.new }
{
    let steps = steps_of(lights);
    match check_tried(list, page.len(), lights, steps) {
        Err(refused) => Outcome {
            answer: Err(refused),
            touched: [0; PLAYERS],
        },
        Ok(Accepted { header, .. }) => {
            let n = (header.w as usize) * (header.h as usize);
            let basis = Basis::from(header);
            // no list is accepted in unfit lights
            let known = steps.unwrap();
            let touched = paint_in(
                &mut page[..n],
                lights,
                known,
                list,
                basis,
                header.background,
            );
            let size = Size {
                w: header.w,
                h: header.h,
            };
            Outcome {
                answer: Ok(size),
                touched,
            }
        }
    }
}
