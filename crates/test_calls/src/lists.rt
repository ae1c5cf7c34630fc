// A list from the numbers of its slots, and back.
use crate::numbers::put;
use crate::slots::Slot;
use list_elements::List;

// The list of all slots, with this count. A number that is not there is 0. Never inlined, so that the compiler sees the list of
// a caller lent nowhere, and copies it once less in each call that takes it.
#[inline(never)]
pub fn list_from(shapes: &[usize], numbers: &[i64], count: usize) -> List {
    let mut list = List::empty();
    let mut shapes = shapes.iter().copied();
    let mut numbers = numbers.iter().copied();
    for element in list.elements.iter_mut() {
        let mut part = || shapes.next().unwrap_or_default();
        let slot = Slot {
            shape: [part(), part(), part()],
            number: numbers.next().unwrap_or_default(),
        };
        element.value = slot.into();
    }
    list.count = count;
    list
}

// Puts the three numbers of a slot, or as many of them as fit. (One after another: by `put` alone they would be a call of `memcpy` for
// each slot, which takes three times as long.)
fn put_shape(shape: [usize; 3], out: &mut [usize]) {
    match out {
        [kind, first, len, ..] => [*kind, *first, *len] = shape,
        _ => put(&shape, out),
    }
}

// Puts all slots, those past the count too.
pub fn put_list(list: &List, shapes: &mut [usize], numbers: &mut [i64]) {
    for (i, element) in list.elements.iter().enumerate() {
        let slot = Slot::from(element.value);
        let at = shapes.len().min(3 * i);
        put_shape(slot.shape, &mut shapes[at..]);
        if let Some(number) = numbers.get_mut(i) {
            *number = slot.number;
        }
    }
}
