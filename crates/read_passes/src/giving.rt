// The list of the elements found, after everything was accepted.
ghost use Rattle.std.specs.Prelude.{◌≡◌, ◌+◌, ◌≤◌, length};
ghost use Rattle.buffer.specs.Splice.{splice};
ghost use Rattle.list_elements.specs.Elements.{empty_list};
ghost use Rattle.list_elements.specs.Contents.{bytes_of, laid_texts, value_from, values_from, list_of};
ghost use Rattle.read_passes.specs.Passes.{content_found, field_inside, Contents, Found, SomeFound};

use field_read::text::read_text;
use list_elements::{Element, List, Text, Value};

// The value of an element, a text of this length; a text is laid in the area from `at` on.
fn give_value(value: Value, len: usize, records: &[u8], area: &mut [u8], at: usize) -> Value
    requires room { at + len ≤ length area.old }
    requires inside { field_inside records.now value }
    ensures value { result ≡ value_from at (content_found records.now len value) }
    ensures bytes { area.new ≡ splice area.old at (bytes_of (content_found records.now len value)) }
{
    let Value::Text(field) = value else {
        return value;
    };
    let part = &records[field.start..][..field.len];
    read_text(&mut area[at..at + len], part);
    Value::Text(Text { start: at, len })
}

// The list, which is empty yet, with the elements; their texts laid in the area from the first byte on. (By index: of the elements
// behind `iter_mut` a proof would know nothing afterwards. What was found stands beside what was wanted: fixed memory, and the wanted
// list is lent. The list is lent too, so that it is made where the answer has it, and not copied.)
pub fn give(wanted: &[Element], found: &[Element], records: &[u8], area: &mut [u8], list: &mut List)
    requires found { SomeFound records.now wanted.now found.now (length area.old) }
    requires empty { list.old ≡ empty_list }
    ensures list { (cs : Contents) → Found records.now wanted.now found.now (length area.old) cs → list.new ≡ list_of (values_from 0 cs) }
    ensures texts { (cs : Contents) → Found records.now wanted.now found.now (length area.old) cs → area.new ≡ laid_texts area.old cs }
{
    let mut at: usize = 0;
    for (i, element) in wanted.iter().enumerate() {
        let len = element.value.text_len();
        let value = give_value(found[i].value, len, records, area, at);
        list.elements[i] = Element { value };
        at += len;
    }
    list.count = wanted.len();
}
