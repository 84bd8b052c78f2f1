//! Gathers values by keys.

ghost use Rattle.std.specs.Prelude.{◌≡◌, OnOk};
ghost use Rattle.mk_repair.specs.Gathering.{with_value};
ghost use Rattle.mk_repair.specs.Rows.{table_rows};

use indexmap::IndexMap;
use std::alloc::{AllocError, Global};
use std::hash::Hash;

/// Adds a value at the end of the row of its key; a new key has a new row at the end. The only
/// error is out of memory.
pub fn add_value<K: Eq + Hash + Drop, V: Drop>(
    alloc: Global,
    rows: &mut IndexMap<K, Vec<V>>,
    key: K,
    value: V,
) -> Result<(), AllocError>
    ensures { OnOk result (table_rows rows.new.entries ≡
        with_value K.eq (table_rows rows.old.entries) key value) }
{
    let row = rows.entry(key)?.or_insert(Vec::new(alloc));
    row.push(value)?;
    Ok(())
}
