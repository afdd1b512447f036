// Reads one record from the front of some bytes.
ghost use Rattle.std.specs.Prelude.{◌≡◌, ◌+◌, ◌≤◌, ltb, length, get_or, drop};
ghost use Rattle.limits.specs.Limits.{basis_refusal};
ghost use Rattle.limits.specs.Refusal.{told, numbered};
ghost use Rattle.format.specs.Format.{kind_size, size_at};
ghost use Rattle.format.specs.inner.Record.{Whole};
ghost use Rattle.records.specs.inner.Front.{opening_refusal, front_tried};
ghost use Rattle.records.specs.Read.{reading_of, past_record};

use ceilings::Counted;
use decoding::decode;
use format::{RECORD_MOST, kind_size, last_kind};
use limits::{Refusal, check_basis, check_record};
use shapes::{Basis, Record};

// Whether fewer bytes are left than a record of this kind has. Where the longest fits its size is not looked up, so that a walk waits for no
// more than the kind.
#[tactic(auto, using(std::proofs::lemmas::Bool::Decides::nat_tests, format::proofs::Bytes::size_most))]
fn cut_short(left: usize, kind: u8) -> bool
    ensures { result ≡ ltb left (kind_size kind) }
{
    left < RECORD_MOST && left < kind_size(kind)
}

// Tries the front of some bytes, as far as it is tried before the fields of the record are read. The kind is tried as a byte: a walk over a
// list tells it apart once, where it decodes.
#[tactic(auto, using(std::proofs::lemmas::Bool::Decides::nat_tests), unfolding(crate::specs::inner::Front::opening_refusal))]
fn check_opening(list: &[u8], basis: Basis) -> Result<(), Refusal>
    ensures { told result ≡ opening_refusal basis list.now }
{
    let Some(&kind) = list.first() else {
        return Err(Refusal::Short);
    };
    if u8::from(last_kind(basis.version)) < kind {
        return Err(Refusal::Kind);
    }
    if cut_short(list.len(), kind) {
        return Err(Refusal::Short);
    }
    Ok(())
}

// Tries the record at the front under a clip of so many pixels, where the basis has no refusal: a walk over a list tries its basis once.
#[tactic(auto, using(std::proofs::lemmas::Bool::Decides::nat_tests, crate::proofs::Refusals::read_refusal_by, crate::proofs::Refusals::opening_whole))]
pub fn try_front(list: &[u8], basis: Basis, pixels: u64) -> Result<Counted, Refusal>
    requires { basis_refusal basis ≡ 0 }
    ensures { numbered result ≡ front_tried basis pixels list.now }
{
    check_opening(list, basis)?;
    ceilings::try_record(basis, decode(list), pixels)
}

// The record at the front.
#[tactic(auto, using(std::proofs::lemmas::Bool::Decides::nat_tests, crate::proofs::Refusals::read_refusal_by, crate::proofs::Refusals::opening_whole), unfolding(crate::specs::Read::reading_of))]
pub fn read_record(list: &[u8], basis: Basis) -> Result<Record, Refusal>
    ensures { numbered result ≡ reading_of basis list.now }
{
    check_basis(basis)?;
    check_opening(list, basis)?;
    let rec = decode(list);
    check_record(basis, rec)?;
    Ok(rec)
}

// The bytes past the record that stands whole at the front.
fn past(list: &[u8]) -> &[u8]
    requires { Whole list.now }
    ensures { result.now ≡ drop (size_at list.now) list.now }
{
    let next = kind_size(list[0]);
    &list[next..]
}

// The bytes past the record at the front, or all of them after a refusal.
#[tactic(auto, using(std::proofs::lemmas::Bool::Decides::nat_tests, crate::proofs::Refusals::whole_read), unfolding(crate::specs::Read::reading_of, crate::specs::Read::past_record))]
pub fn rest(list: &[u8], basis: Basis) -> &[u8]
    ensures { result.now ≡ past_record basis list.now }
{
    match read_record(list, basis) {
        Ok(_) => past(list),
        Err(_) => list,
    }
}

// Where the next record begins: a walk over a list goes by the part past each record.
pub fn next_place(list: &[u8], place: usize) -> usize
    requires { (place ≤ length list.now) × Whole (drop place list.now) }
    ensures { result ≡ place + kind_size (get_or list.now place 0) }
{
    let left = past(&list[place..]);
    list.len() - left.len()
}
