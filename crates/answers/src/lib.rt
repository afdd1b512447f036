// The answers of the library in the form that C takes: a refusal is its number, and 0 stands for none.
#![tactic(auto)]

ghost use Rattle.std.specs.Prelude.{◌≡◌};
ghost use Rattle.limits.specs.Refusal.{number_of};

pub mod shape; // shape.rt: what is told of one shape
pub mod record; // record.rt: one record, read or written
pub mod list; // list.rt: a whole list, checked, drawn or squeezed

use limits::Refusal;

fn number_of(refusal: Refusal) -> u32
    ensures { result ≡ number_of refusal }
{
    u8::from(refusal).into()
}
