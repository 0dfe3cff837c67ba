//! What is done to a list of numbers in place: a part of it turned, or appended to it again.

ghost use Rattle.std.specs.Prelude.{◌≡◌, ◌≤◌, ◌<◌, ◌+◌, ◌-◌, ◌++◌, length, map, vec_capacity, vec_len};
ghost use Rattle.dom_tree.specs.Turned.{between, raised, turned};

/// Turns a part of a list to the left, in place: its first `count` items become its last.
pub(crate) fn turn(list: &mut Vec<u32>, from: usize, to: usize, count: usize)
    requires within { to ≤ length list.old.items }
    requires part { from + count ≤ to }
    ensures { list.new.items ≡ turned from to count list.old.items }
{
    list[from..to].rotate_left(count);
}

/// Appends a part of a list to it. There is room.
pub(crate) fn append_part(list: &mut Vec<u32>, from: usize, to: usize)
    requires order { from ≤ to }
    requires within { to ≤ length list.old.items }
    requires room { vec_len list.old + (to - from) ≤ vec_capacity list.old }
    ensures items { list.new.items ≡ list.old.items ++ between from to list.old.items }
    ensures capacity { vec_capacity list.old ≤ vec_capacity list.new }
{
    let _done = list.extend_from_within(from..to);
}

/// Appends numbers to a list, each raised by `last`. There is room.
pub(crate) fn append_raised(list: &mut Vec<u32>, numbers: &[u32], last: u32)
    requires { vec_len list.old + length numbers.now ≤ vec_capacity list.old }
    ensures items { list.new.items ≡ list.old.items ++ map (raised last) numbers.now }
    ensures capacity { vec_capacity list.new ≡ vec_capacity list.old }
{
    for number in numbers {
        list.push_reserved(last.saturating_add(*number));
    }
}

/// Moves a part of a list, from one index up to another, to a place that is not within it.
pub(crate) fn move_part(list: &mut Vec<u32>, start: usize, end: usize, place: usize)
    requires order { start ≤ end }
    requires within { end ≤ length list.old.items }
    requires place { place ≤ length list.old.items }
    requires outside { start < place → end ≤ place }
    ensures early { place ≤ start → list.new.items ≡ turned place end (start - place) list.old.items }
    ensures late { start < place → list.new.items ≡ turned start place (end - start) list.old.items }
{
    if place <= start {
        turn(list, place, end, start - place);
    } else {
        turn(list, start, place, end - start);
    }
}
