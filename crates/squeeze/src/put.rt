// The settings and the shapes of a squeezed list, put into a target.
ghost use Rattle.std.specs.Prelude.{◌++◌, ◌+◌, ◌≤◌, length};
ghost use Rattle.format.specs.Format.{record_bytes};
ghost use Rattle.squeezed.specs.Squeeze.{changes, all_bytes};
ghost use Rattle.squeezed.specs.inner.Size.{size_of};
ghost use Rattle.squeeze.specs.inner.Target.{Took};

use crate::kinds::same_clip;
use crate::target::Target;
use settings::Settings;
use shapes::{Record, Setting};

fn put_setting<T: Target>(target: &mut T, setting: Setting)
    requires { T.end target.old + length (record_bytes (Record.Setting setting)) ≤ T.most target.old }
    ensures { Took T.end T.most T.Wrote target.old (record_bytes (Record.Setting setting)) target.new }
{
    let rec = Record::Setting(setting);
    let bytes = encoding::record_bytes(rec);
    target.put(&bytes[..format::record_size(rec)]);
}

// A shape, whose record has these bytes, behind the settings that differ.
#[tactic(auto, unfolding(squeezed::specs::Squeeze::same_clip, squeezed::specs::Squeeze::changes, squeezed::specs::Squeeze::change, squeezed::specs::Squeeze::all_bytes))]
pub(crate) fn put_shape<T: Target>(
    target: &mut T,
    before: Settings,
    settings: Settings,
    bytes: &[u8],
)
    requires { T.end target.old + length (all_bytes (changes before settings) ++ bytes.now) ≤ T.most target.old }
    ensures { Took T.end T.most T.Wrote target.old (all_bytes (changes before settings) ++ bytes.now) target.new }
{
    if !same_clip(before.clip, settings.clip) {
        put_setting(target, Setting::Clip(settings.clip));
    }
    if before.level != settings.level {
        put_setting(target, Setting::Level(settings.level));
    }
    if before.player != settings.player {
        put_setting(target, Setting::Player(settings.player));
    }
    target.put_run(bytes);
}
