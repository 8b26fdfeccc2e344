//! The columns of a result row.
ghost use Rattle.std.specs.Prelude.{◌≡◌, ℕ, ℤ, pos, List, IfNone, IfSome};
ghost use Rattle.sqlite_value.specs.declared.value.Value.TheVariants.{Int, Text};
ghost use Rattle.sqlite_value.specs.Order.{column};

use sqlite::Row;
use sqlite_value::value::ValueRef;

/// The integer in a column, if there is one.
pub fn integer_at(row: &Row, at: usize) -> Option<i64>
    ensures some { IfSome result (λ n. column row.now at ≡ Int n) }
    ensures none { IfNone result ((n : ℤ) → column row.now at ≡ Int n → ⊥) }
{
    match row.get_ref(at) {
        Ok(ValueRef::Int(number)) => Some(number),
        _ => None,
    }
}

/// The number in a column, if there is one and it isn't negative.
pub fn number_at(row: &Row, at: usize) -> Option<u64>
    ensures some { IfSome result (λ n. column row.now at ≡ Int (pos n)) }
    ensures none { IfNone result ((n : ℕ) → column row.now at ≡ Int (pos n) → ⊥) }
{
    match row.get_ref(at) {
        Ok(ValueRef::Int(number)) => u64::try_from(number).ok(),
        _ => None,
    }
}

/// The text in a column, if there is one.
pub fn text_at(row: &Row, at: usize) -> Option<&[u8]>
    ensures some { IfSome result (λ text. column row.now at ≡ Text text.now) }
    ensures none { IfNone result ((text : List ℕ) → column row.now at ≡ Text text → ⊥) }
{
    match row.get_ref(at) {
        Ok(ValueRef::Text(text)) => Some(text),
        _ => None,
    }
}
