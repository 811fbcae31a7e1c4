ghost use Rattle.std.specs.Prelude.{◌≡◌, ◌+◌, ◌≤◌, length};
ghost use Rattle.boxes.specs.Shelf.{written};

// Writes `new` into the list from `at` on.
pub(crate) fn put<T: Copy>(list: &mut [T], at: usize, new: &[T])
    requires { at + length new.now ≤ length list.old }
    ensures { list.new ≡ written at new.now list.old }
{
    let end = at + new.len();
    list[at..end].copy_from_slice(new);
}
