// The writer of a drawing list: a header or one record into a lent list.
ghost use Rattle.std.specs.Prelude.{◌≡◌};
ghost use Rattle.records.specs.Write.{header_list};
ghost use Rattle.arguments.specs.Taken.{clip_of, taken_of};
ghost use Rattle.greystroke.specs.Writing.{header_of, header_put, record_put, after_record, shape_put, after_shape};

use answers::record::{WriteAnswer, write_answer};
use arguments::{GivenBasis, GivenClip, GivenShape};
use format::Header;
use limits::Refusal;
use records::write::Cursor;
use shapes::{Basis, Record, Setting};

// Writes a header of a version, W and H to byte 0; held is the basis that the writer holds.
#[unsafe(no_mangle)]
#[tactic(auto, unfolding(crate::specs::Writing::header_put))]
pub extern "C" fn greystroke_write_header(
    list: &mut [u8],
    place: usize,
    held: GivenBasis,
    basis: GivenBasis,
    background: u8,
) -> WriteAnswer
    ensures value { result ≡ header_put list.old place held (header_of basis background) }
    ensures list_after { list.new ≡ header_list list.old (header_of basis background) }
{
    let told = Basis::from(basis);
    let header = Header {
        version: told.version,
        w: told.w,
        h: told.h,
        background,
    };
    write_answer(held, place, records::write::write_header(list, header))
}

// Every record is written so.
#[tactic(auto, unfolding(crate::specs::Writing::record_put, crate::specs::Writing::after_record))]
fn write(list: &mut [u8], place: usize, basis: GivenBasis, rec: Record) -> WriteAnswer
    ensures value { result ≡ record_put list.old place basis rec }
    ensures list_after { list.new ≡ after_record list.old place basis rec }
{
    let at = Cursor {
        place,
        basis: basis.into(),
    };
    write_answer(basis, place, records::write::write_record(list, at, rec))
}

// Writes an end record to the place.
#[unsafe(no_mangle)]
pub extern "C" fn greystroke_write_end(
    list: &mut [u8],
    place: usize,
    basis: GivenBasis,
) -> WriteAnswer
    ensures value { result ≡ record_put list.old place basis Record.End }
    ensures list_after { list.new ≡ after_record list.old place basis Record.End }
{
    write(list, place, basis, Record::End)
}

// Writes a clip to the place.
#[unsafe(no_mangle)]
pub extern "C" fn greystroke_write_clip(
    list: &mut [u8],
    place: usize,
    basis: GivenBasis,
    clip: GivenClip,
) -> WriteAnswer
    ensures value { result ≡ record_put list.old place basis (Record.Setting (Setting.Clip (clip_of clip))) }
    ensures list_after { list.new ≡ after_record list.old place basis (Record.Setting (Setting.Clip (clip_of clip))) }
{
    write(
        list,
        place,
        basis,
        Record::Setting(Setting::Clip(clip.into())),
    )
}

// Writes a level to the place.
#[unsafe(no_mangle)]
pub extern "C" fn greystroke_write_level(
    list: &mut [u8],
    place: usize,
    basis: GivenBasis,
    level: u8,
) -> WriteAnswer
    ensures value { result ≡ record_put list.old place basis (Record.Setting (Setting.Level level)) }
    ensures list_after { list.new ≡ after_record list.old place basis (Record.Setting (Setting.Level level)) }
{
    write(list, place, basis, Record::Setting(Setting::Level(level)))
}

// Writes a player to the place.
#[unsafe(no_mangle)]
pub extern "C" fn greystroke_write_player(
    list: &mut [u8],
    place: usize,
    basis: GivenBasis,
    player: u8,
) -> WriteAnswer
    ensures value { result ≡ record_put list.old place basis (Record.Setting (Setting.Player player)) }
    ensures list_after { list.new ≡ after_record list.old place basis (Record.Setting (Setting.Player player)) }
{
    write(list, place, basis, Record::Setting(Setting::Player(player)))
}

// Writes a shape to the place.
#[unsafe(no_mangle)]
#[tactic(auto, unfolding(crate::specs::Writing::shape_put, crate::specs::Writing::after_shape))]
pub extern "C" fn greystroke_write_shape(
    list: &mut [u8],
    place: usize,
    basis: GivenBasis,
    shape: GivenShape,
) -> WriteAnswer
    ensures value { result ≡ shape_put list.old place basis (taken_of shape) }
    ensures list_after { list.new ≡ after_shape list.old place basis (taken_of shape) }
{
    match arguments::taken_of(shape) {
        Some(known) => write(list, place, basis, Record::Shape(known)),
        None => write_answer(basis, place, Err(Refusal::Kind)),
    }
}
