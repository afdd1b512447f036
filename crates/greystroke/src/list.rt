// Drawing lists: one record read, and a whole list checked.
ghost use Rattle.std.specs.Prelude.{◌≡◌};
ghost use Rattle.format.specs.Format.{header_at};
ghost use Rattle.records.specs.Read.{reading_of};
ghost use Rattle.lists.specs.List.{page_records, checked_of, pageless_records, checked_without_page};
ghost use Rattle.drawing.specs.Ceiling.{TouchesWithin};
ghost use Rattle.arguments.specs.Taken.{basis_taken};
ghost use Rattle.answers.specs.Record.{read_answer};
ghost use Rattle.answers.specs.List.{check_answer};

use answers::list::CheckAnswer;
use answers::record::ReadAnswer;
use arguments::GivenBasis;

// Reads the record at the front of some bytes.
#[unsafe(no_mangle)]
pub extern "C" fn greystroke_read_record(list: &[u8], basis: GivenBasis) -> ReadAnswer
    ensures { result ≡ read_answer (reading_of (basis_taken basis) list.now) }
{
    records::read::read_record(list, basis.into()).into()
}

// Checks a whole list for a page of so many bytes in 256 lights.
#[unsafe(no_mangle)]
pub extern "C" fn greystroke_check_list(list: &[u8], page: usize, lights: &[u16]) -> CheckAnswer
    ensures value { result ≡ check_answer (checked_of list.now page lights.now) }
    ensures touches_within { TouchesWithin (header_at list.now) (page_records list.now page lights.now) result.ceiling }
{
    lists::check::check_list(list, page, lights).into()
}

// Checks a whole list without a page.
#[unsafe(no_mangle)]
pub extern "C" fn greystroke_check_without_page(list: &[u8]) -> CheckAnswer
    ensures value { result ≡ check_answer (checked_without_page list.now) }
    ensures touches_within { TouchesWithin (header_at list.now) (pageless_records list.now) result.ceiling }
{
    lists::check::check_without_page(list).into()
}
