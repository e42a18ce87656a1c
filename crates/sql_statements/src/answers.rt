// What the rows of an answer hold.
ghost use Rattle.std.specs.Prelude.{◌≡◌, ◌≢◌, ◌<◌, ◌^◌, ℕ, ℤ, List, None, IfSome, length, pos};
ghost use Rattle.sqlite.specs.declared.types.Value.TheVariants.{Blob, Int};
ghost use Rattle.sqlite.specs.Order.{column};

use sqlite::Row;
use sqlite::types::ValueRef;

/// The whole number at a place of an answer, if there is one.
pub fn number_in(row: &Row, place: usize) -> Option<i64>
    ensures some { IfSome result (λ n. column row.now place ≡ Int n) }
    ensures none { result ≡ None → place < length row.now → (n : ℤ) → column row.now place ≢ Int n }
{
    match row.get_ref(place) {
        Ok(ValueRef::Int(number)) => Some(number),
        _ => None,
    }
}

/// The bytes at a place of an answer, if there are some.
pub fn bytes_in(row: &Row, place: usize) -> Option<&[u8]>
    ensures some { IfSome result (λ bytes. column row.now place ≡ Blob bytes.now) }
    ensures none { result ≡ None → place < length row.now → (bytes : List ℕ)
        → column row.now place ≢ Blob bytes }
{
    match row.get_ref(place) {
        Ok(ValueRef::Blob(bytes)) => Some(bytes),
        _ => None,
    }
}
