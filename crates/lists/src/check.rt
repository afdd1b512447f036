// Checks a whole list.
ghost use Rattle.std.specs.Prelude.{◌≡◌, List, [], ℕ, suc, ◌≤◌, length, drop};
ghost use Rattle.lights.specs.inner.Fit.{Spaced};
ghost use Rattle.limits.specs.Limits.{first, basis_refusal};
ghost use Rattle.limits.specs.Refusal.{told, numbered, unless};
ghost use Rattle.format.specs.Format.{list_most, header_size, header_at, basis_of};
ghost use Rattle.lists.specs.List.{has_mark, header_refusal, page_tests, records_from, checked_as, checked_of, checked_without_page};
ghost use Rattle.lists.specs.Refused.{numbered_at};

use crate::RefusedAt;
use decoding::read_header;
use format::{HEADER_SIZE, Header, Kind, LIST_MOST};
use lights::fit::{Steps, steps_of};
use limits::{Refusal, check_basis};
use records::read::{next_place, try_front};
use shapes::Basis;

// What is told of an accepted list: its header, and the ceiling of its touches.
#[derive(Clone, Copy)]
pub struct Accepted {
    pub header: Header,
    pub ceiling: u64,
}

fn has_mark(list: &[u8]) -> bool
    ensures { result ≡ has_mark list.now }
{
    list.starts_with(b"INK")
}

// The header, where nothing of it is refused.
#[tactic(auto, using(std::proofs::lemmas::Bool::Decides::nat_tests), unfolding(crate::specs::List::header_refusal))]
fn check_header(list: &[u8]) -> Result<Header, Refusal>
    ensures { numbered result ≡ unless (header_refusal [] list.now) (header_at list.now) }
{
    if LIST_MOST < list.len() {
        return Err(Refusal::Long);
    }
    if list.len() < HEADER_SIZE {
        return Err(Refusal::Short);
    }
    if !has_mark(list) {
        return Err(Refusal::Mark);
    }
    let header = read_header(list);
    check_basis(Basis::from(header))?;
    Ok(header)
}

// A page of so many bytes, and lights by what is known of their steps.
fn check_page(header: Header, page: usize, steps: Option<Steps>) -> Result<(), Refusal>
    ensures { (lights : List ℕ) → Spaced lights steps → told result ≡ first (page_tests header page lights) }
{
    if (page as u64) < u64::from(header.w) * u64::from(header.h) {
        return Err(Refusal::Room);
    }
    if steps.is_none() {
        return Err(Refusal::Lights);
    }
    Ok(())
}

// Tries the records one after the other, and adds up what the shapes count, each under the clip in force.
fn check_records(list: &[u8], header: Header) -> Result<Accepted, RefusedAt>
    requires { (header_size ≤ length list.now) × (length list.now ≤ list_most) × (basis_refusal (basis_of header) ≡ 0) }
    ensures { numbered_at result ≡ checked_as header (records_from (suc (length list.now)) (basis_of header) (drop header_size list.now) header_size) }
{
    let basis = Basis::from(header);
    let mut place = HEADER_SIZE;
    let mut pixels = u64::from(header.w) * u64::from(header.h);
    let mut ceiling: u64 = 0;
    // no index is counted: a walk goes by the size of each record
    loop {
        let counted = match try_front(&list[place..], basis, pixels) {
            Ok(counted) => counted,
            Err(refusal) => return Err(RefusedAt { refusal, place }),
        };
        ceiling += counted.ceiling;
        pixels = counted.pixels;
        let kind = list[place];
        place = next_place(list, place);
        if kind == u8::from(Kind::End) {
            if place < list.len() {
                let refusal = Refusal::Trailing;
                return Err(RefusedAt { refusal, place });
            }
            return Ok(Accepted { header, ceiling });
        }
    }
}

// Checks a list for a page of so many bytes and for lights that have been tried: their steps are known, and they are not read.
#[tactic(auto, using(std::proofs::lemmas::Bool::Decides::nat_tests, crate::proofs::Headers::header_then, crate::proofs::Headers::headed), unfolding(crate::specs::List::records_of))]
pub fn check_tried(
    list: &[u8],
    page: usize,
    lights: &[u16],
    steps: Option<Steps>,
) -> Result<Accepted, RefusedAt>
    requires { Spaced lights.now steps }
    ensures { numbered_at result ≡ checked_of list.now page lights.now }
{
    let header = check_header(list)?;
    check_page(header, page, steps)?;
    check_records(list, header)
}

// Checks a list for a page of so many bytes in some lights.
pub fn check_list(list: &[u8], page: usize, lights: &[u16]) -> Result<Accepted, RefusedAt>
    ensures { numbered_at result ≡ checked_of list.now page lights.now }
{
    check_tried(list, page, lights, steps_of(lights))
}

// Checks a list without a page.
#[tactic(auto, using(std::proofs::lemmas::Bool::Decides::nat_tests, crate::proofs::Headers::header_then, crate::proofs::Headers::headed), unfolding(crate::specs::List::records_of))]
pub fn check_without_page(list: &[u8]) -> Result<Accepted, RefusedAt>
    ensures { numbered_at result ≡ checked_without_page list.now }
{
    let header = check_header(list)?;
    check_records(list, header)
}
