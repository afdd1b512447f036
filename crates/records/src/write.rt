// Writes a header or a record into a list.
ghost use Rattle.std.specs.Prelude.{◌≡◌, ◌||◌, ◌+◌, ◌≤◌, cond, ltb, length};
ghost use Rattle.std.proofs.Math.Seq.{paste};
ghost use Rattle.limits.specs.Refusal.{told, numbered};
ghost use Rattle.format.specs.Format.{header_size};
ghost use Rattle.format.specs.inner.Record.{record_most};
ghost use Rattle.records.specs.Write.{too_few, header_write_refusal, record_write_refusal, header_written, header_list, record_written, record_list};

use encoding::{header_bytes, record_bytes};
use format::{HEADER_SIZE, Header, Kind, LIST_MOST, RECORD_MOST, last_kind, record_size};
use limits::{Refusal, check_basis, check_record};
use shapes::{Basis, Record};

// Where the writer stands: the place of the next record, and the basis that is held.
#[derive(Clone, Copy, PartialEq, Eq)]
pub struct Cursor {
    pub place: usize,
    pub basis: Basis,
}

// Puts the first n of some bytes into a list, from a place on.
fn put(list: &mut [u8], place: usize, bytes: [u8; RECORD_MOST], n: usize)
    requires { (n ≤ record_most) × (place + n ≤ length list.old) }
    ensures { list.new ≡ paste list.old place bytes n }
{
    list[place..place + n].copy_from_slice(&bytes[..n]);
}

// Tries a header for a list of n bytes.
#[tactic(auto, using(std::proofs::lemmas::Bool::Decides::nat_tests), unfolding(crate::specs::Write::header_write_refusal))]
fn check_header(n: usize, header: Header) -> Result<(), Refusal>
    ensures { told result ≡ header_write_refusal n header }
{
    check_basis(header.into())?;
    if n < HEADER_SIZE {
        return Err(Refusal::Full);
    }
    Ok(())
}

// Tries the room of a list of n bytes for a record of some size at a place.
fn check_room(n: usize, place: usize, size: usize) -> Result<(), Refusal>
    requires { size ≤ record_most }
    ensures { told result ≡ cond (ltb place header_size || too_few n (place + size)) 22 0 }
{
    if place < HEADER_SIZE || n.min(LIST_MOST) < place.saturating_add(size) {
        return Err(Refusal::Full);
    }
    Ok(())
}

// Tries a record for a list of n bytes.
#[tactic(auto, using(std::proofs::lemmas::Bool::Decides::nat_tests, format::proofs::Bytes::record_most_lem), unfolding(crate::specs::Write::record_write_refusal))]
fn check_write(n: usize, at: Cursor, rec: Record) -> Result<(), Refusal>
    ensures { told result ≡ record_write_refusal n at rec }
{
    check_basis(at.basis)?;
    if last_kind(at.basis.version) < Kind::from(rec) {
        return Err(Refusal::Kind);
    }
    check_record(at.basis, rec)?;
    check_room(n, at.place, record_size(rec))
}

// Writes a header to byte 0, from any place, and tells where the writer stands behind it.
#[tactic(auto, using(std::proofs::lemmas::Bool::Decides::nat_tests, crate::proofs::Writes::put_header, crate::proofs::Writes::header_room), unfolding(crate::specs::Write::header_written, crate::specs::Write::header_list))]
pub fn write_header(list: &mut [u8], header: Header) -> Result<Cursor, Refusal>
    ensures value { numbered result ≡ header_written list.old header }
    ensures list_after { list.new ≡ header_list list.old header }
{
    check_header(list.len(), header)?;
    put(list, 0, header_bytes(header), HEADER_SIZE);
    Ok(Cursor {
        place: HEADER_SIZE,
        basis: header.into(),
    })
}

// Writes a record to the place, and tells where the writer stands behind it.
#[tactic(auto, using(std::proofs::lemmas::Bool::Decides::nat_tests, crate::proofs::Writes::put_padded, crate::proofs::Writes::writable, crate::proofs::Refusals::record_fits, format::proofs::Bytes::record_most_lem), unfolding(crate::specs::Write::record_written, crate::specs::Write::record_list))]
pub fn write_record(list: &mut [u8], at: Cursor, rec: Record) -> Result<Cursor, Refusal>
    ensures value { numbered result ≡ record_written list.old at rec }
    ensures list_after { list.new ≡ record_list list.old at rec }
{
    check_write(list.len(), at, rec)?;
    let size = record_size(rec);
    put(list, at.place, record_bytes(rec), size);
    Ok(Cursor {
        place: at.place + size,
        basis: at.basis,
    })
}
