// Row 6: whether the elements of a list are as they have to be, and then the elements.
ghost use Rattle.std.specs.Prelude.{◌≡◌, Bool};
ghost use Rattle.list_elements.specs.Elements.{values};
ghost use Rattle.list_elements.specs.Limits.{list_check, may_be_wanted};
ghost use Rattle.list_elements.specs.Checked.{CheckedAs, listed_as};

use crate::listed::Listed;
use crate::{BadElement, Element, List, Value};

impl List {
    // The elements before the count, where all of them pass a test and there are not too many.
    fn checked<F: Fn(Value) -> bool>(&self, test: F) -> Result<&[Element], BadElement>
        requires { F.IsAlwaysCallable test }
        ensures { (passes : Value → Bool) → ((v : Value) (b : Bool) → F.post test v b → b ≡ passes v) → CheckedAs passes self.now result }
    {
        let looked_at = &self.elements[..self.count.min(List::MOST)];
        for (place, element) in looked_at.iter().enumerate() {
            if !test(element.value) {
                return Err(BadElement { place });
            }
        }
        self.elements
            .get(..self.count)
            .ok_or(BadElement { place: List::MOST })
    }

    // The elements, where they are within their limits, their texts in the area.
    pub fn listed<'a>(&'a self, area: &'a [u8]) -> Result<Listed<'a>, BadElement>
        ensures { listed_as (list_check area.now self.now) (values self.now) area.now result }
    {
        let elements = self.checked(|value| value.is_within_limits(area))?;
        Ok(Listed { elements, area })
    }

    // The elements, where they may be wanted of a reading.
    pub fn wanted(&self) -> Result<&[Element], BadElement>
        ensures { CheckedAs may_be_wanted self.now result }
    {
        self.checked(|value| value.may_be_wanted())
    }
}
