//! Finds out if a table has a key that the format does not.
ghost use Rattle.std.specs.Prelude.{◌≡◌, map};
ghost use Rattle.toml.specs.View.{table_view};
ghost use Rattle.rule_text.specs.Steps.{is_key_among, has_only};

use toml::Table;

/// Returns true if the key is one of the names.
fn is_among(names: &[&str], key: &str) -> bool
    ensures { result ≡ is_key_among (map (λ name. name.now) names.now) key.now }
{
    for name in names {
        if key == *name {
            return true;
        }
    }
    false
}

/// Returns true if each key of the table is one of the names.
pub(crate) fn has_only(table: &Table, names: &[&str]) -> bool
    ensures { result ≡ has_only (map (λ name. name.now) names.now) (table_view table.now) }
{
    for key in table.keys() {
        if !is_among(names, key.as_str()) {
            return false;
        }
    }
    true
}
