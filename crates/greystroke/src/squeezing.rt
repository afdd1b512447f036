// A list squeezed into a lent output.
ghost use Rattle.std.specs.Prelude.{◌≡◌, length};
ghost use Rattle.format.specs.Format.{header_at};
ghost use Rattle.lists.specs.List.{pageless_records};
ghost use Rattle.squeezed.specs.Squeeze.{squeeze_answer, squeeze_output};
ghost use Rattle.squeezed.specs.Claim.{KeepsBy};
ghost use Rattle.answers.specs.List.{squeeze_answered};

use answers::list::SqueezeAnswer;

// Squeezes a list into an output.
#[unsafe(no_mangle)]
pub extern "C" fn greystroke_squeeze_list(squeezed: &mut [u8], list: &[u8]) -> SqueezeAnswer
    ensures value { result ≡ squeeze_answered (squeeze_answer (length squeezed.old) (header_at list.now) (pageless_records list.now)) }
    ensures squeezed_after { squeezed.new ≡ squeeze_output squeezed.old (header_at list.now) (pageless_records list.now) }
    ensures keeps_by { KeepsBy list.now (squeeze_answer (length squeezed.old) (header_at list.now) (pageless_records list.now)) squeezed.new }
{
    squeeze::squeeze(squeezed, list).into()
}
