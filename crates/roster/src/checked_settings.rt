//! The server's settings.
ghost use Rattle.std.specs.Prelude.{◌≡◌, IfOk};
ghost use Rattle.registration.specs.Settings.{IsWellSet};

use registration::Settings;
use std::alloc::AllocError;
use std::marker::Model;

/// Settings within their limits.
#[derive(Drop)]
pub(crate) struct CheckedSettings {
    settings: Settings,
}

impl Model for CheckedSettings {
    ghost use Rattle.registration.specs.declared.settings.Settings.{Settings};
    ghost use Rattle.registration.specs.Settings.{IsWellSet};

    ghost Value = { Settings };

    ghost view = { λ a. a.settings };

    ghost invariant = { λ a. IsWellSet a.settings };
}

impl CheckedSettings {
    pub(crate) fn new(settings: Settings) -> CheckedSettings
        requires { IsWellSet settings }
        ensures { result ≡ settings }
    {
        CheckedSettings { settings }
    }

    /// A copy.
    pub(crate) fn try_clone(&self) -> Result<CheckedSettings, AllocError>
        ensures { IfOk result (λ g. g ≡ self.now) }
    {
        Ok(CheckedSettings {
            settings: self.settings.clone()?,
        })
    }

    pub(crate) fn get(&self) -> &Settings
        ensures value { result.now ≡ self.now }
        ensures well_set { IsWellSet self.now }
    {
        &self.settings
    }
}
