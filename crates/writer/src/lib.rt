// The writer of a drawing list: the list being written together with where the writer stands.
// The work is done by `records::write`; the thin methods store what is answered.
#![tactic(auto)]

ghost use Rattle.std.specs.Prelude.{◌≡◌, length};
ghost use Rattle.limits.specs.Refusal.{told};
ghost use Rattle.records.specs.Write.{header_write_refusal, record_write_refusal};
ghost use Rattle.writer.specs.Writer.{headed, recorded, StartedBy, started_list};

use format::Header;
use limits::Refusal;
use records::write::Cursor;
use shapes::{Basis, Record};

#[derive(Drop)]
pub struct Writer<'a> {
    pub list: &'a mut [u8],
    pub at: Cursor,
}

impl Writer<'_> {
    // Writes a header to byte 0.
    #[tactic(auto, using(std::proofs::lemmas::Bool::Decides::nat_tests), unfolding(records::specs::Write::header_written))]
    pub fn write_header(&mut self, header: Header) -> Result<(), Refusal>
        ensures value { told result ≡ header_write_refusal (length self.old.list.now) header }
        ensures after { self.new ≡ headed self.old header }
    {
        self.at = records::write::write_header(&mut *self.list, header)?;
        Ok(())
    }

    // Writes a record to the place.
    #[tactic(auto, using(std::proofs::lemmas::Bool::Decides::nat_tests), unfolding(records::specs::Write::record_written))]
    pub fn write_record(&mut self, rec: Record) -> Result<(), Refusal>
        ensures value { told result ≡ record_write_refusal (length self.old.list.now) self.old.at rec }
        ensures after { self.new ≡ recorded self.old rec }
    {
        self.at = records::write::write_record(&mut *self.list, self.at, rec)?;
        Ok(())
    }
}

// The answers for a header and for one record behind it, and the place that is reached. Both are told, so that no `?` ends the start early.
#[derive(Clone, Copy)]
pub struct Started {
    pub header: Result<(), Refusal>,
    pub rec: Result<(), Refusal>,
    pub place: usize,
}

// Starts a list: a header and a first record, from plain parameters. It shows how a caller uses the writer.
pub fn start_list(list: &mut [u8], header: Header, rec: Record) -> Started
    ensures value { StartedBy list.old header rec result }
    ensures list_after { list.new ≡ started_list list.old header rec }
{
    let basis = Basis {
        version: 0,
        w: 0,
        h: 0,
    };
    let mut writer = Writer {
        list,
        at: Cursor { place: 0, basis },
    };
    let first = writer.write_header(header);
    let second = writer.write_record(rec);
    Started {
        header: first,
        rec: second,
        place: writer.at.place,
    }
}
