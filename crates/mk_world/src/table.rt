//! Tables: names, each with a value or without one.

ghost use Rattle.std.specs.Prelude.{◌≡◌, length, true, Some, OnOk, IfOk, None};
ghost use Rattle.std.specs.Bool.{OnTrue, OnFalse};
ghost use Rattle.mk_lines.specs.Names.{has_name};
ghost use Rattle.mk_build.specs.World.{changed};
ghost use Rattle.mk_world.specs.Tables.{look};

use mk_lines::BorrowedNames;

/// The value of a name.
pub fn get<T: Copy>(names: &BorrowedNames, values: &[Option<T>], name: &str) -> Option<T>
    requires { length values.now ≡ length names.now }
    ensures { result ≡ look names.now values.now name.now }
{
    match values.get(names.number_of(name)) {
        Some(value) => *value,
        None => None,
    }
}

/// Removes the value of a name, if the name is in the table. Returns whether it is.
pub fn clear<T: Copy>(names: &BorrowedNames, values: &mut Vec<Option<T>>, name: &str) -> bool
    requires { length values.old.items ≡ length names.now }
    ensures there { result ≡ has_name names.now name.now }
    ensures len { length values.new.items ≡ length values.old.items }
    ensures noted { OnTrue result (look names.now values.new.items ≡
        changed (look names.now values.old.items) name.now None) }
    ensures same { OnFalse result (values.new.items ≡ values.old.items) }
{
    let place = names.number_of(name);
    if place >= values.len() {
        return false;
    }
    values[place] = None;
    true
}

/// Sets the value of a name, if the name is in the table. Returns whether it is.
pub fn set<T: Copy>(
    names: &BorrowedNames,
    values: &mut Vec<Option<T>>,
    name: &str,
    value: T,
) -> bool
    requires { length values.old.items ≡ length names.now }
    ensures there { result ≡ has_name names.now name.now }
    ensures len { length values.new.items ≡ length values.old.items }
    ensures noted { OnTrue result (look names.now values.new.items ≡
        changed (look names.now values.old.items) name.now (Some value)) }
    ensures same { OnFalse result (values.new.items ≡ values.old.items) }
{
    let place = names.number_of(name);
    if place >= values.len() {
        return false;
    }
    values[place] = Some(value);
    true
}
