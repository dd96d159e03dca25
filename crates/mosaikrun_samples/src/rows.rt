//! How many rows of a table of tests are right.

use mk_base::Mem;

/// How many rows stand before the first that isn't right; all, where none is wrong.
pub fn count_right<T, F: Fn(&T) -> Result<bool, Mem>>(rows: &[T], is_right: F) -> Result<usize, Mem>
    requires { F.IsAlwaysCallable is_right }
{
    for (place, row) in rows.iter().enumerate() {
        if !is_right(row)? {
            return Ok(place);
        }
    }
    Ok(rows.len())
}
