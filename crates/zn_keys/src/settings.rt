// What a word sets.
ghost use Rattle.std.specs.Prelude.{◌≡◌};
ghost use Rattle.zn_base.specs.Decimals.{number_in};
ghost use Rattle.zn_stand.specs.declared.numbers.TheConstants.{GREATEST_NUMBER};
ghost use Rattle.zn_keys.specs.Keys.{setting_named, setting_of};

use zn_base::parse_number;
use zn_stand::GREATEST_NUMBER;

/// What a word sets. Sizes are in blocks.
#[derive(Clone, Copy)]
pub enum Setting {
    /// The size of the device.
    Size(u64),
    /// The size of a zone.
    ZoneSize(u64),
    /// The capacity of a sequential zone.
    ZoneCapacity(u64),
    /// The conventional zones.
    ConvZones(u32),
    /// The most open zones.
    MaxOpen(u32),
    /// The most active zones.
    MaxActive(u32),
}

/// The blocks of one MiB.
const MIB: u64 = 256;

/// What a number sets behind a key.
#[tactic(auto, unfolding(crate::specs::Keys::setting_named))]
fn setting_named(key: &str, number: u32) -> Option<Setting>
    ensures { result ≡ setting_named key.now number }
{
    let blocks = number as u64;
    match key {
        "capacity_mb" => Some(Setting::Size(MIB * blocks)),
        "capacity_blocks" => Some(Setting::Size(blocks)),
        "zone_size_mb" => Some(Setting::ZoneSize(MIB * blocks)),
        "zone_blocks" => Some(Setting::ZoneSize(blocks)),
        "zone_capacity_mb" => Some(Setting::ZoneCapacity(MIB * blocks)),
        "zone_capacity_blocks" => Some(Setting::ZoneCapacity(blocks)),
        "conv_zones" => Some(Setting::ConvZones(number)),
        "max_open" => Some(Setting::MaxOpen(number)),
        "max_active" => Some(Setting::MaxActive(number)),
        _ => None,
    }
}

/// The decimal number that a word is.
fn number_in(word: &str) -> Option<u32>
    ensures { result ≡ number_in GREATEST_NUMBER word.now }
{
    let number = parse_number(word.as_bytes(), GREATEST_NUMBER as u64)?;
    Some(number as u32)
}

/// The setting that a word is: a key, and behind its first `=` a number.
pub fn setting_of(word: &str) -> Option<Setting>
    ensures { result ≡ setting_of word.now }
{
    let (key, value) = word.split_once('=')?;
    setting_named(key, number_in(value)?)
}
