// Squeezes a list for storage: settings that change nothing go.
#![tactic(auto)]

mod kinds; // kinds.rt: what a walk asks of a kind
mod put; // put.rt: the settings and the shapes of a squeezed list, put into a target
mod source; // source.rt: an accepted list, and a walk that puts what is kept of it into a target
mod target; // target.rt: what takes the bytes of a squeezed list

ghost use Rattle.std.specs.Prelude.{◌≡◌, length};
ghost use Rattle.format.specs.Format.{header_at};
ghost use Rattle.lists.specs.List.{pageless_records};
ghost use Rattle.lists.specs.Refused.{numbered_at};
ghost use Rattle.squeezed.specs.Squeeze.{fitted, filled, squeeze_answer, squeeze_output};
ghost use Rattle.squeezed.specs.Claim.{KeepsBy};
ghost use Rattle.squeeze.specs.inner.Source.{squeezed_source};

use crate::source::Source;
use crate::target::Output;
use limits::Refusal;
use lists::RefusedAt;

// Squeezes an accepted list.
fn squeeze_accepted(out: &mut [u8], source: Source) -> Result<usize, RefusedAt>
    ensures value { numbered_at result ≡ fitted (length out.old) (squeezed_source source.entry) }
    ensures out_after { out.new ≡ filled out.old (squeezed_source source.entry) }
{
    if source.overflows(out.len()) {
        return Err(Refusal::Full.into());
    }
    let mut output = Output { out, end: 0 };
    source.put_into(&mut output);
    Ok(output.end)
}

// Squeezes a list into an output, or refuses it and leaves the output as it was.
pub fn squeeze(out: &mut [u8], list: &[u8]) -> Result<usize, RefusedAt>
    ensures value { numbered_at result ≡ squeeze_answer (length out.old) (header_at list.now) (pageless_records list.now) }
    ensures out_after { out.new ≡ squeeze_output out.old (header_at list.now) (pageless_records list.now) }
    ensures keeps_by { KeepsBy list.now (numbered_at result) out.new }
{
    let header = lists::check::check_without_page(list)?.header;
    squeeze_accepted(out, Source { list, header })
}
