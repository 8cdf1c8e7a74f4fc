//! What a step is, and the look-up of a group by its name.

ghost use Rattle.std.specs.Prelude.{◌≡◌, ◌<◌, ◌≤◌, [], length, IfSome, IfNone, Some, false, slice_get};
ghost use Rattle.std.specs.Option.{option_map};
ghost use Rattle.flow_model.specs.Check.{is_named};
ghost use Rattle.flow_model.specs.Places.{entries_named};
ghost use Rattle.flow_asm.specs.Steps.{layout, stages, starts_of};
ghost use Rattle.flow_asm.specs.Places.{group_at};
ghost use Rattle.flow_asm.specs.Views.{IsStepView};

use crate::code::{Code, Step};
use sw_participant::Kind;

/// What a step is.
#[derive(Clone, Copy)]
pub enum StepView {
    /// The participant of this number is prepared; it has these marks.
    Call(usize, Kind),
    /// The selector of this number selects groups.
    Pick(usize),
    /// The end of a group.
    Return,
}

impl Code {
    /// What a step of the code is.
    pub fn look(&self, step: usize) -> StepView
        requires { step < length (stages self.now) }
        ensures view { IsStepView self.now step result }
        ensures small { length (stages self.now) ≤ 33024 }
    {
        self.is_checked();
        match self.steps()[step] {
            Step::Call(participant) => {
                let part = &self.participants()[participant];
                StepView::Call(participant, part.kind)
            }
            Step::Pick(participant) => StepView::Pick(participant),
            Step::Return => StepView::Return,
        }
    }

    /// The number of the group of this name, in the order of [`Code::groups`]; `None` if the flow has no
    /// such group.
    pub fn find_group(&self, name: &[u8]) -> Option<usize>
        ensures within { IfSome result (λ g. g < length (layout self.now)) }
        ensures named { IfSome result
            (λ g. option_map (λ s. s.name) (slice_get (starts_of self.now) g) ≡ Some name.now) }
        ensures found { IfSome result (λ g. entries_named self.now name.now
            ≡ group_at (layout self.now) g) }
        ensures none { IfNone result (entries_named self.now name.now ≡ []) }
        ensures unknown { IfNone result (is_named name.now self.now.groups ≡ false) }
    {
        for (number, group) in self.groups().iter().enumerate() {
            if group.name.as_str().as_bytes() == name {
                return Some(number);
            }
        }
        None
    }
}
