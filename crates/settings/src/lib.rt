// What the items SP, SS and S of a format set, for the fields met after them.
#![tactic(auto)]

// An item that sets how fields are written.
#[derive(Clone, Copy, PartialEq, Eq, Debug)]
pub enum SettingItem {
    SP,
    SS,
    S,
}

// The setting under which a numeral stands: after SS, or S, or after SP.
#[derive(Clone, Copy, PartialEq, Eq, Debug)]
pub enum SignSetting {
    AfterSS,
    AfterSP,
}

// The settings that a walk carries.
#[derive(Clone, Copy, PartialEq, Eq, Debug)]
pub struct Settings {
    pub signs: SignSetting,
}

impl Settings {
    ghost use Rattle.std.specs.Prelude.{◌≡◌};
    ghost use Rattle.settings.specs.Settings.{set_by};

    // What a walk starts with.
    pub const START: Settings = Settings {
        signs: SignSetting::AfterSS,
    };

    // The settings after an item.
    pub fn set(self, item: SettingItem) -> Settings
        ensures { result ≡ set_by item self }
    {
        match item {
            SettingItem::SP => Settings {
                signs: SignSetting::AfterSP,
            },
            SettingItem::SS | SettingItem::S => Settings {
                signs: SignSetting::AfterSS,
            },
        }
    }
}
