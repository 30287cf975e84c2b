//! The values of keys, by their kinds.
ghost use Rattle.std.specs.Prelude.{◌≡◌, Option, option_copied};
ghost use Rattle.std.specs.Option.{option_map};
ghost use Rattle.toml.specs.Data.{get_member, as_str, as_bool};
ghost use Rattle.toml.specs.View.{view, table_view};
ghost use Rattle.vme_config_toml.specs.Values.{whole, required, optional};

use toml::{Table, Value};

/// Returns the value of `key`, or `None` if the table does not have the key.
pub(crate) fn value_at<'a>(table: &'a Table, key: &str) -> Option<&'a Value>
    ensures { option_map (λ value. view value.now) result ≡ get_member key.now (table_view table.now) }
{
    table.get(key)
}

/// Returns the value if it is a whole number from 0 to 2^32 - 1.
#[tactic(auto, unfolding(crate::specs::Values::whole))]
pub(crate) fn whole(value: &Value) -> Option<u32>
    ensures { result ≡ whole (view value.now) }
{
    match value.as_integer() {
        Some(n) if 0 <= n && n <= 0xffff_ffff => Some(n as u32),
        _ => None,
    }
}

/// Returns the whole number at a required key, or `None` if the key is absent or has another value.
#[tactic(auto, unfolding(crate::specs::Values::required))]
pub(crate) fn required_whole(table: &Table, key: &str) -> Option<u32>
    ensures { result ≡ required whole key.now (table_view table.now) }
{
    whole(value_at(table, key)?)
}

/// Returns the whole number at `key`, or `default` if the key is absent.
#[tactic(auto, unfolding(crate::specs::Values::optional))]
pub(crate) fn whole_or(table: &Table, key: &str, default: u32) -> Option<u32>
    ensures { result ≡ optional whole key.now default (table_view table.now) }
{
    match value_at(table, key) {
        Some(value) => whole(value),
        None => Some(default),
    }
}

/// Returns the Boolean at `key`, or `default` if the key is absent.
#[tactic(auto, unfolding(crate::specs::Values::optional))]
pub(crate) fn bool_or(table: &Table, key: &str, default: bool) -> Option<bool>
    ensures { result ≡ optional as_bool key.now default (table_view table.now) }
{
    match value_at(table, key) {
        Some(value) => value.as_bool(),
        None => Some(default),
    }
}

/// Returns the string at `key`, or `default` if the key is absent.
#[tactic(auto, unfolding(crate::specs::Values::optional))]
pub(crate) fn str_or<'a>(table: &'a Table, key: &str, default: &'a str) -> Option<&'a str>
    ensures { option_copied result ≡ optional as_str key.now default.now (table_view table.now) }
{
    match value_at(table, key) {
        Some(value) => value.as_str(),
        None => Some(default),
    }
}
