//! Rows read as items.

ghost use Rattle.std.specs.Prelude.{◌≡◌, ◌≢◌, ◌<◌, ℕ, Bool, List, length, pos, if◌then◌else◌};
ghost use Rattle.std.specs.Prelude.{IfErr, IfNone, IfOk, IfSome};
ghost use Rattle.sqlite.specs.declared.types.Value.TheVariants.{Blob, Int};
ghost use Rattle.sqlite_value.specs.Order.{column};
ghost use Rattle.book_store.specs.Items.{IsBad, IsFit, IsShown};
ghost use Rattle.book_store.specs.declared.item.Item as declared;

use crate::error::BookFileError;
use crate::item::{Hashed, Item};
use sqlite::Row;
use sqlite::types::ValueRef;
use store_base::int_at;

fn nat_at(row: &Row, at: usize) -> Option<u64>
    ensures some { IfSome result (λ n. column row.now at ≡ Int (pos n)) }
    ensures none { IfNone result ((n : ℕ) → column row.now at ≢ Int (pos n)) }
{
    let Ok(ValueRef::Int(n)) = row.get_ref(at) else {
        return None;
    };
    if n < 0 { None } else { Some(n as u64) }
}

fn day_at(row: &Row, at: usize) -> Option<u32>
    ensures some { IfSome result (λ n. column row.now at ≡ Int (pos n)) }
    ensures none { IfNone result
        ((n : ℕ) → n < 4294967296 → column row.now at ≢ Int (pos n)) }
{
    let Some(n) = nat_at(row, at) else {
        return None;
    };
    if n > 4294967295 { None } else { Some(n as u32) }
}

fn hashed_at(row: &Row, at: usize) -> Option<Hashed>
    ensures some { IfSome result (λ h. column row.now at ≡ Blob h.bytes) }
    ensures none { IfNone result
        ((bytes : List ℕ) → length bytes ≡ 32 → column row.now at ≢ Blob bytes) }
{
    let Ok(ValueRef::Blob(bytes)) = row.get_ref(at) else {
        return None;
    };
    match bytes.as_array::<32>() {
        Some(bytes) => Some(Hashed { bytes: *bytes }),
        None => None,
    }
}

fn flag_at(row: &Row, at: usize) -> Option<bool>
    ensures some { IfSome result
        (λ b. column row.now at ≡ Int (if b then pos 1 else pos 0)) }
    ensures none { IfNone result
        ((b : Bool) → column row.now at ≢ Int (if b then pos 1 else pos 0)) }
{
    match row.get_ref(at) {
        Ok(ValueRef::Int(0)) => Some(false),
        Ok(ValueRef::Int(1)) => Some(true),
        _ => None,
    }
}

fn item_of(row: &Row) -> Option<Item>
    ensures some { IfSome result (IsShown row.now) }
    ensures none { IfNone result
        ((i : declared.Item) → IsFit i → IsShown row.now i → ⊥) }
{
    let id = nat_at(row, 0)?;
    let card = hashed_at(row, 1)?;
    let request = hashed_at(row, 2)?;
    let amount = nat_at(row, 3)?;
    let day = day_at(row, 4)?;
    let reversed = flag_at(row, 5)?;
    Some(Item {
        id,
        card,
        request,
        amount,
        day,
        reversed,
    })
}

/// The item that a row of `BookFile::next` shows. A row that is no item is named.
pub fn item_in(row: &Row) -> Result<Item, BookFileError>
    ensures ok { IfOk result (IsShown row.now) }
    ensures bad { IfErr result (IsBad row.now) }
{
    match item_of(row) {
        Some(item) => Ok(item),
        None => Err(BookFileError::BadRow(int_at(row, 0))),
    }
}
