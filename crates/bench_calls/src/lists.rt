// A list from its slots.
use list_elements::List;
use test_calls::slots::Slot;

// The list of as many elements as there are slots; where these are more than a list holds, only the count says so. It is inlined,
// and handed straight to the call that takes it: as a call of its own it takes some 300 instructions more.
pub fn listed(slots: &[Slot]) -> List {
    let mut list = List::empty();
    for (element, slot) in list.elements.iter_mut().zip(slots) {
        element.value = (*slot).into();
    }
    list.count = slots.len();
    list
}
