//! Parts of lists that go, come and move, with no memory taken.

ghost use Rattle.std.specs.Prelude.{◌≡◌, ◌+◌, ◌++◌, ◌≤◌, [], drop, length, reverse, take, vec_capacity, vec_len};

/// Drops a part of a list: so many items from an index on.
pub(crate) fn drop_part<T: Drop>(list: &mut Vec<T>, from: usize, count: usize)
    requires { from + count ≤ length list.old.items }
    ensures items { list.new.items ≡ take from list.old.items ++ drop count (drop from list.old.items) }
    ensures capacity { vec_capacity list.new ≡ vec_capacity list.old }
{
    let left = list.len() - count;
    list[from..].rotate_left(count);
    list.truncate(left);
}

/// Puts items into a list at an index, in front of those that stand there. There is room.
pub(crate) fn put_part<T>(list: &mut Vec<T>, from: usize, more: &mut Vec<T>)
    requires within { from ≤ length list.old.items }
    requires room { vec_len list.old + vec_len more.old ≤ vec_capacity list.old }
    ensures items { list.new.items ≡ take from list.old.items ++ (more.old.items ++ drop from list.old.items) }
    ensures none { more.new.items ≡ [] }
    ensures room { vec_capacity more.new ≡ vec_capacity more.old }
    ensures capacity { vec_capacity list.old ≤ vec_capacity list.new }
{
    let count = more.len();
    let _done = list.append(more);
    list[from..].rotate_right(count);
}

/// Moves a part of a list to the end of another one: so many items from an index on. There is room.
pub(crate) fn move_part<T>(list: &mut Vec<T>, from: usize, count: usize, to: &mut Vec<T>)
    requires within { from + count ≤ length list.old.items }
    requires room { vec_len to.old + count ≤ vec_capacity to.old }
    ensures left { list.new.items ≡ take from list.old.items ++ drop count (drop from list.old.items) }
    ensures moved { to.new.items ≡ to.old.items ++ take count (drop from list.old.items) }
    ensures capacity { vec_capacity list.new ≡ vec_capacity list.old }
{
    let left = list.len() - count;
    turn_to_end(list, from, count);
    reverse_end(list, left);
    move_reversed(list, left, to);
}

/// Turns a part of a list to its end.
fn turn_to_end<T>(list: &mut Vec<T>, from: usize, count: usize)
    requires { from + count ≤ length list.old.items }
    ensures items { list.new.items ≡ take from list.old.items
        ++ (drop count (drop from list.old.items) ++ take count (drop from list.old.items)) }
    ensures capacity { vec_capacity list.new ≡ vec_capacity list.old }
{
    list[from..].rotate_left(count);
}

/// Turns round what stands behind an index.
fn reverse_end<T>(list: &mut Vec<T>, from: usize)
    requires { from ≤ length list.old.items }
    ensures items { list.new.items ≡ take from list.old.items ++ reverse (drop from list.old.items) }
    ensures capacity { vec_capacity list.new ≡ vec_capacity list.old }
{
    list[from..].reverse();
}

/// Moves what stands behind an index to the end of another list, the last item first. There is room.
fn move_reversed<T>(list: &mut Vec<T>, left: usize, to: &mut Vec<T>)
    requires within { left ≤ length list.old.items }
    requires room { vec_len to.old + vec_len list.old ≤ vec_capacity to.old + left }
    ensures left { list.new.items ≡ take left list.old.items }
    ensures moved { to.new.items ≡ to.old.items ++ reverse (drop left list.old.items) }
    ensures capacity { vec_capacity list.new ≡ vec_capacity list.old }
{
    while list.len() > left {
        let item = list.pop().unwrap();
        to.push_reserved(item);
    }
}
