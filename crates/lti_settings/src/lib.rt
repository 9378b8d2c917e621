//! The settings of this end, read from a source: the scheme by which it is reached, and the consumer keys with their secrets.
//!
//! They are a JSON object (RFC 8259) of this project's own form, over the kit's definition of the value of a text. Bytes are
//! settings exactly where `specs/Settings.antt` has a reading for them (`Settings::read`); a source is read to its end, or
//! until it has given too much (`read_settings`). Why there are none has its status.
#![tactic(auto)]

mod settings;
mod settings_source;
#[cfg(test)]
mod tests;

pub use settings::{Settings, SettingsFault};
pub use settings_source::{NoSettings, read_settings};
