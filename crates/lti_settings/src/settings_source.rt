// The settings, read from a source.
ghost use Rattle.std.specs.Prelude.{◌≡◌, []};
ghost use Rattle.lti_settings.specs.SettingsRead.{ReadsSettings, TakesAll};

use crate::settings::{Settings, SettingsFault};
use lti_outside::{NoMemory, ReadFault, Source};
use lti_words::Status;
use std::alloc::{AllocError, Global};

// How many bytes settings have at most.
const MOST: usize = 1_048_576;

// How many bytes are asked of the source at a time.
const BLOCK_LEN: usize = 4_096;

/// Why a source gave no settings.
#[derive(Clone, Copy, Debug, PartialEq, Eq)]
pub enum NoSettings {
    /// It gave over 1,048,576 bytes, or bytes that have no reading.
    NoReading,
    /// A read of it failed.
    ReadFault,
    /// There was no memory for them.
    NoMemory,
}

impl NoSettings {
    ghost use Rattle.std.specs.Prelude.{◌≡◌};
    ghost use Rattle.lti_settings.specs.SettingsRead.{status_of};

    /// How a run ends that has no settings.
    pub fn status(self) -> Status
        ensures { result ≡ status_of self }
    {
        match self {
            NoSettings::NoReading => Status::Settings,
            NoSettings::ReadFault => Status::ReadFault,
            NoSettings::NoMemory => Status::NoMemory,
        }
    }
}

impl From<ReadFault> for NoSettings {
    ghost use Rattle.std.specs.Prelude.{◌≡◌};
    ghost use Rattle.lti_settings.specs.declared.settings_source.NoSettings.TheVariants as none;

    ghost from_gives = { λ _ made. made ≡ none.ReadFault };

    fn from(_: ReadFault) -> Self {
        NoSettings::ReadFault
    }
}

impl From<NoMemory> for NoSettings {
    ghost use Rattle.std.specs.Prelude.{◌≡◌};
    ghost use Rattle.lti_settings.specs.declared.settings_source.NoSettings.TheVariants as none;

    ghost from_gives = { λ _ made. made ≡ none.NoMemory };

    fn from(_: NoMemory) -> Self {
        NoSettings::NoMemory
    }
}

impl From<AllocError> for NoSettings {
    ghost use Rattle.std.specs.Prelude.{◌≡◌};
    ghost use Rattle.lti_settings.specs.declared.settings_source.NoSettings.TheVariants as none;

    ghost from_gives = { λ _ made. made ≡ none.NoMemory };

    fn from(_: AllocError) -> Self {
        NoSettings::NoMemory
    }
}

// Takes all that the source gives, where it isn't too much.
fn take_all<S: Source>(
    source: &mut S,
    block: &mut [u8; BLOCK_LEN],
    held: &mut Vec<u8>,
) -> Result<(), NoSettings>
    requires { held.old.items ≡ [] }
    ensures { TakesAll (S.traffic source.old) (S.traffic source.new) held.new.items result }
{
    // Each turn takes at least one byte of those that settings may have.
    'turns: loop {
        let count = source.take(block)?;
        if count == 0 {
            return Ok(());
        }
        if held.len() + count > MOST {
            return Err(NoSettings::NoReading);
        }
        held.extend_from_slice(&block[..count])?;
    }
}

/// Reads a source to its end, and the settings that its bytes are.
pub fn read_settings<S: Source>(alloc: Global, source: &mut S) -> Result<Settings, NoSettings>
    ensures { ReadsSettings (S.traffic source.old) (S.traffic source.new) result }
{
    let mut held = Vec::new(alloc);
    take_all(source, &mut [0u8; BLOCK_LEN], &mut held)?;
    match Settings::read(alloc, &held) {
        Ok(settings) => Ok(settings),
        Err(SettingsFault::NoReading) => Err(NoSettings::NoReading),
        Err(SettingsFault::NoMemory) => Err(NoSettings::NoMemory),
    }
}
