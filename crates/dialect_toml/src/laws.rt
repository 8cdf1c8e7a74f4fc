//! A law of the fields of a profile file.

ghost use Rattle.dialect_toml.specs.EachField.{StatesEach, StatesNoOther};

/// A document without a fault states the row of each table of a field, under its number, and no other row.
pub fn each_field_has_its_row()
    ensures each { StatesEach }
    ensures no_other { StatesNoOther }
{}
