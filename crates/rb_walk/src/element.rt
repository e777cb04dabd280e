//! The elements of an array, and the trap of an index outside it.

ghost use Rattle.std.specs.Prelude.{◌≡◌, Ok};
ghost use Rattle.rb_meaning.specs.Value.{index_in, number_at, element_at};

use rb_base::Cause;

/// An index, if it lies in its array.
pub fn index_in(values: &[i64], index: i64) -> Result<usize, Cause>
    ensures { result ≡ index_in values.now index }
{
    match usize::try_from(index) {
        Ok(place) if place < values.len() => Ok(place),
        _ => Err(Cause::Index),
    }
}

/// The number at a place, or 0.
pub fn number_at(values: &[i64], place: usize) -> i64
    ensures { result ≡ number_at values.now place }
{
    values.get(place).copied().unwrap_or(0)
}

/// An element of an array.
pub fn element_at(values: &[i64], index: i64) -> Result<i64, Cause>
    ensures { result ≡ element_at values.now (Ok index) }
{
    let place = index_in(values, index)?;
    Ok(number_at(values, place))
}
