//! The names of a flow's groups and participants, by their numbers.

ghost use Rattle.std.specs.Prelude.{◌≡◌};
ghost use Rattle.tx_trace.specs.Trace.{group_name, part_name};

use flow_asm::Code;

/// The names of a flow's groups and participants.
#[derive(Clone, Copy)]
pub struct Names<'a> {
    pub code: &'a Code,
}

impl<'a> Names<'a> {
    /// The name of the group of this number; empty if there is none.
    pub fn group(&self, number: usize) -> &'a str
        ensures { result.now ≡ group_name self.now.code.now number }
    {
        match self.code.groups().get(number) {
            Some(group) => group.name.as_str(),
            None => "",
        }
    }

    /// The name of the participant of this number; empty if there is none.
    pub fn participant(&self, number: usize) -> &'a str
        ensures { result.now ≡ part_name self.now.code.now number }
    {
        match self.code.participants().get(number) {
            Some(part) => part.name.as_str(),
            None => "",
        }
    }
}
