//! Cells of the rows that a query gives.

ghost use Rattle.std.specs.Prelude.{◌≡◌, ◌-◌, length, option_map, slice_get};
ghost use Rattle.sqlite_rules.specs.Edit.{id_in};
ghost use Rattle.sqlite_value.specs.Order.{column};

use sqlite::Row;
use sqlite::types::ValueRef;

/// The integer in a cell, 0 for any other cell.
pub fn int_at(row: &Row, at: usize) -> i64
    ensures { result ≡ id_in (column row.now at) }
{
    match row.get_ref(at) {
        Ok(ValueRef::Int(n)) => n,
        _ => 0,
    }
}

/// The integer in the first cell of the first row.
pub fn first_int(rows: &[Row]) -> Option<i64>
    ensures { result ≡ option_map (λ r. id_in (column r 0)) (slice_get rows.now 0) }
{
    match rows.first() {
        Some(row) => Some(int_at(row, 0)),
        None => None,
    }
}

/// The integer in the first cell of the last row.
pub fn last_int(rows: &[Row]) -> Option<i64>
    ensures { result ≡ option_map (λ r. id_in (column r 0))
        (slice_get rows.now (length rows.now - 1)) }
{
    match rows.last() {
        Some(row) => Some(int_at(row, 0)),
        None => None,
    }
}
