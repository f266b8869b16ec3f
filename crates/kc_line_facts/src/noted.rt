//! What is noted by number: for each number a place in a list, or none.

ghost use Rattle.std.specs.Prelude.{◌≡◌, None, slice_index_or};

/// What is noted for a number.
pub(crate) fn noted_at(noted: &[Option<usize>], number: usize) -> Option<usize>
    ensures { result ≡ slice_index_or noted.now number None }
{
    match noted.get(number) {
        Some(place) => *place,
        None => None,
    }
}
