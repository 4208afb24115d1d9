// What the words give.
ghost use Rattle.std.specs.Prelude.{◌≡◌, map};
ghost use Rattle.zn_keys.specs.Keys.{given_in};
ghost use Rattle.zn_keys.specs.Steps.{once, with_setting};

use crate::settings::{Setting, setting_of};
use std::convert::AsStr;

/// What the words give, each value at most once. Sizes are in blocks.
#[derive(Clone, Copy, Default)]
pub struct Given {
    pub size: Option<u64>,
    pub zone_size: Option<u64>,
    pub zone_capacity: Option<u64>,
    pub conv_zones: Option<u32>,
    pub max_open: Option<u32>,
    pub max_active: Option<u32>,
}

/// The value as given, if none was given before.
fn once<T: Copy>(before: Option<T>, value: T) -> Option<Option<T>>
    ensures { result ≡ once before value }
{
    match before {
        None => Some(Some(value)),
        Some(_) => None,
    }
}

/// What is given with a setting too, if its value was not given before.
fn with_setting(given: Given, setting: Setting) -> Option<Given>
    ensures { result ≡ with_setting given setting }
{
    let mut given = given;
    match setting {
        Setting::Size(blocks) => given.size = once(given.size, blocks)?,
        Setting::ZoneSize(blocks) => given.zone_size = once(given.zone_size, blocks)?,
        Setting::ZoneCapacity(blocks) => given.zone_capacity = once(given.zone_capacity, blocks)?,
        Setting::ConvZones(zones) => given.conv_zones = once(given.conv_zones, zones)?,
        Setting::MaxOpen(zones) => given.max_open = once(given.max_open, zones)?,
        Setting::MaxActive(zones) => given.max_active = once(given.max_active, zones)?,
    }
    Some(given)
}

/// What the words give, if each is a setting, and no value is given twice.
pub fn given_in<S: AsStr>(words: &[S]) -> Option<Given>
    ensures { result ≡ given_in (map S.text words.now) }
{
    let mut given = Given::default();
    for word in words {
        given = with_setting(given, setting_of(word.as_str())?)?;
    }
    Some(given)
}
