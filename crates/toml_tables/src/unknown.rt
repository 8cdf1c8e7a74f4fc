//! The keys that a table may not have.

ghost use Rattle.std.specs.Prelude.{◌≡◌, option_map, string_bytes};
ghost use Rattle.toml.specs.View.{table_view};
ghost use Rattle.toml_tables.specs.Unknown as spec;

use std::convert::AsStr;
use toml::Table;

fn is_known<K: AsStr>(keys: &[K], name: &str) -> bool
    ensures { result ≡ spec.is_known K.text keys.now name.now }
{
    keys.iter().any(|key| key.as_str() == name)
}

/// The least key of a table, by its bytes, that is none of these. (A table's keys ascend, so the first is the
/// least.)
pub fn unknown_key<'a, K: AsStr>(keys: &[K], table: &'a Table) -> Option<&'a String>
    ensures { option_map (λ k. string_bytes k.now) result
        ≡ spec.unknown_key K.text keys.now (table_view table.now) }
{
    for (name, _value) in table.iter() {
        if !is_known(keys, name.as_str()) {
            return Some(name);
        }
    }
    None
}
