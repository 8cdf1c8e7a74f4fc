//! Whether two contexts are the same.

ghost use Rattle.std.specs.Prelude.{◌≡◌, ◌<◌, ◌↔◌, IsTrue, length, slice_get};

use super::Context;

impl Context {
    // Whether the entries at this index are the same.
    fn is_same_at(&self, other: &Context, index: usize) -> bool
        requires here { index < length self.now }
        requires there { index < length other.now }
        ensures { IsTrue result ↔ (slice_get self.now index ≡ slice_get other.now index) }
    {
        let (Some(name), Some(value)) = (self.name_at(index), self.value_at(index)) else {
            unreachable!()
        };
        let (Some(other_name), Some(other_value)) = (other.name_at(index), other.value_at(index))
        else {
            unreachable!()
        };
        name.as_bytes() == other_name.as_bytes() && value == other_value
    }

    /// Whether the contexts have the same entries in the same order. It takes no memory.
    pub fn is_same(&self, other: &Context) -> bool
        ensures { IsTrue result ↔ (self.now ≡ other.now) }
    {
        if self.len() != other.len() {
            return false;
        }
        for index in 0..self.len() {
            if !self.is_same_at(other, index) {
                return false;
            }
        }
        true
    }
}
