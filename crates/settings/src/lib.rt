// The settings in force.
#![tactic(auto)]

ghost use Rattle.std.specs.Prelude.{◌≡◌};
ghost use Rattle.settings.specs.Settings.{start, in_force};

use shapes::{Basis, Clip, Record, Setting};

// The clip, the level and the player in force.
#[derive(Clone, Copy, PartialEq, Eq)]
pub struct Settings {
    pub clip: Clip,
    pub level: u8,
    pub player: u8,
}

impl Settings {
    // The settings before the first record.
    #[tactic(auto, unfolding(crate::specs::Settings::start))]
    pub fn start(basis: Basis) -> Settings
        ensures { result ≡ start basis }
    {
        Settings {
            clip: Clip {
                x0: 0,
                y0: 0,
                x1: basis.w,
                y1: basis.h,
            },
            level: 255,
            player: 0,
        }
    }

    // Brings a record in force, if it is a setting. In place: by value, a walk would take the clip apart and put it together again at each.
    #[tactic(auto, unfolding(crate::specs::Settings::in_force))]
    pub fn apply(&mut self, rec: Record)
        ensures { self.new ≡ in_force self.old rec }
    {
        match rec {
            Record::Setting(Setting::Clip(clip)) => self.clip = clip,
            Record::Setting(Setting::Level(level)) => self.level = level,
            Record::Setting(Setting::Player(player)) => self.player = player,
            Record::Shape(_) | Record::End => {}
        }
    }
}
