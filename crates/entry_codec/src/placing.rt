ghost use Rattle.std.specs.Prelude.{◌≡◌, ◌≤◌, ◌<◌, vec_capacity, vec_len};
ghost use Rattle.std.specs.List.{insert};

/// Puts an element into its place, for which there is room.
pub(crate) fn put_at<T: Drop>(list: &mut Vec<T>, at: usize, new: T)
    requires within { at ≤ vec_len list.old }
    requires room { vec_len list.old < vec_capacity list.old }
    ensures items { list.new.items ≡ insert list.old.items at new }
    ensures capacity { vec_capacity list.new ≡ vec_capacity list.old }
{
    let _ = list.insert(at, new);
}
