// What this end is served with.
ghost use Rattle.std.specs.Prelude.{◌≡◌, List, true, map, None, Some, IfOk, option_map};
ghost use Rattle.serde_json.specs.Read.{read};
ghost use Rattle.serde_json.specs.Find.{get, as_array};
ghost use Rattle.serde_json.specs.View.{view, items_of};
ghost use Rattle.lti_outside.specs.declared.pairs.Pair.{Pair};
ghost use Rattle.lti_settings.specs.Settings as spec;
ghost use Rattle.lti_settings.specs.Settings.{IsSettings, SettingsParts, text_at, pair_in, pairs_in, keys_in, are_keys};

use lti_outside::{NoMemory, Pair, Pairs, Text};
use oauth_request::Keys;
use oauth_text::Scheme;
use serde_json::Value;
use std::alloc::Global;
use std::str;

/// The settings of this end.
#[derive(Drop)]
pub struct Settings {
    /// The scheme by which this end is reached from outside.
    pub scheme: Scheme,
    /// The consumer keys with their secrets.
    pub keys: Keys,
}

/// Why bytes gave no settings.
#[derive(Clone, Copy, Debug, PartialEq, Eq)]
pub enum SettingsFault {
    /// They aren't JSON, or no object with a scheme and with 1 to 1,000 keys that each are of 1 to 255 bytes and differ.
    NoReading,
    /// There was no memory for them, and they may be settings.
    NoMemory,
}

impl From<NoMemory> for SettingsFault {
    ghost use Rattle.std.specs.Prelude.{◌≡◌};
    ghost use Rattle.lti_settings.specs.declared.settings.SettingsFault.TheVariants as fault;

    ghost from_gives = { λ _ made. made ≡ fault.NoMemory };

    fn from(_: NoMemory) -> Self {
        SettingsFault::NoMemory
    }
}

// The value of a text of JSON.
fn value_of(alloc: Global, text: &str) -> Result<Value, SettingsFault>
    ensures ok { IfOk result (λ value. read text.now ≡ Some (view value)) }
    ensures bad { result ≡ Err SettingsFault.NoReading → read text.now ≡ None }
{
    match Value::from_str(alloc, text) {
        Ok(value) => Ok(value),
        Err(error) if error.is_memory() => Err(SettingsFault::NoMemory),
        Err(_) => Err(SettingsFault::NoReading),
    }
}

// The text of a member.
fn text_of<'a>(value: &'a Value, name: &str) -> Option<&'a str>
    ensures { option_map (λ text. text.now) result ≡ text_at name.now (view value.now) }
{
    value.get(name).and_then(Value::as_str)
}

fn scheme_of(text: &str) -> Option<Scheme>
    ensures { result ≡ spec.scheme_of text.now }
{
    match text {
        "http" => Some(Scheme::Http),
        "https" => Some(Scheme::Https),
        _ => None,
    }
}

// A key with its secret.
fn pair_of(alloc: Global, value: &Value) -> Result<Option<Pair>, NoMemory>
    ensures { IfOk result (λ pair. pair ≡ pair_in (view value.now)) }
{
    let Some(key) = text_of(value, "key") else {
        return Ok(None);
    };
    let Some(secret) = text_of(value, "secret") else {
        return Ok(None);
    };
    Ok(Some(Pair {
        name: Text::new(alloc, key)?,
        value: Text::new(alloc, secret)?,
    }))
}

// The pairs of a list.
fn pairs_of(alloc: Global, values: &[Value]) -> Result<Pairs, SettingsFault>
    ensures ok { IfOk result (λ pairs. pairs_in (items_of (map view values.now)) ≡ Some pairs) }
    ensures bad { result ≡ Err SettingsFault.NoReading → pairs_in (items_of (map view values.now)) ≡ None }
{
    let mut pairs = Pairs::new(alloc);
    for value in values {
        let Some(pair) = pair_of(alloc, value)? else {
            return Err(SettingsFault::NoReading);
        };
        pairs.push(pair)?;
    }
    Ok(pairs)
}

// The keys of a value, where it has a list of 1 to 1,000.
fn keys_of(alloc: Global, value: &Value) -> Result<Keys, SettingsFault>
    ensures ok { IfOk result (λ keys. (keys_in (view value.now) ≡ Some keys) × (are_keys keys ≡ true)) }
    ensures bad { result ≡ Err SettingsFault.NoReading → (pairs : List Pair) → keys_in (view value.now) ≡ Some pairs → are_keys pairs ≡ true → ⊥ }
{
    let Some(values) = value.get("keys").and_then(Value::as_array) else {
        return Err(SettingsFault::NoReading);
    };
    let pairs = pairs_of(alloc, values)?;
    if pairs.is_empty() || pairs.len() > 1_000 {
        return Err(SettingsFault::NoReading);
    }
    match Keys::new(pairs) {
        Ok(keys) => Ok(keys),
        Err(_) => Err(SettingsFault::NoReading),
    }
}

impl Settings {
    ghost use Rattle.std.specs.Prelude.{◌≡◌, IfOk};
    ghost use Rattle.lti_settings.specs.Settings.{IsSettings, SettingsParts};
    ghost use Rattle.lti_settings.specs.SettingsView.{settings_parts};

    /// The settings that the bytes are: a JSON object whose member `scheme` is `http` or `https`, and whose member `keys`
    /// is a list of 1 to 1,000 objects, each with the texts `key`, of 1 to 255 bytes and each another one, and `secret`.
    /// Other members are passed over.
    pub fn read(alloc: Global, bytes: &[u8]) -> Result<Settings, SettingsFault>
        ensures found { IfOk result (λ settings. IsSettings bytes.now (settings_parts settings)) }
        ensures bad { result ≡ Err SettingsFault.NoReading → (parts : SettingsParts) → IsSettings bytes.now parts → ⊥ }
    {
        let Ok(text) = str::from_utf8(bytes) else {
            return Err(SettingsFault::NoReading);
        };
        let value = value_of(alloc, text)?;
        let Some(scheme) = text_of(&value, "scheme").and_then(scheme_of) else {
            return Err(SettingsFault::NoReading);
        };
        let keys = keys_of(alloc, &value)?;
        Ok(Settings { scheme, keys })
    }
}
