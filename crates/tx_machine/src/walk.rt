//! Moves along the steps of a flow.

ghost use Rattle.std.specs.Prelude.{◌≡◌, ◌+◌, ◌^◌, ◌<◌, [], ◌++◌, length, map, slice_get, Some, IfSome};
ghost use Rattle.std.specs.Prelude.{IfNone, IfOk, OnErr, IfErr};
ghost use Rattle.std.specs.List.{All};
ghost use Rattle.flow_asm.specs.Steps.{AtReturn, first_step, layout, stages};
ghost use Rattle.flow_asm.specs.Places.{group_at};
ghost use Rattle.tx_machine.specs.Table.{Prepare, passed_if};
ghost use Rattle.tx_machine.specs.Position.{IsStackFrame, IsAhead, left_at, upcoming_at, rest_of, shown};
ghost use Rattle.tx_machine.specs.Position.{entries_in, stack_left, stack_upcoming};

use crate::error::MachineError;
use flow_asm::{Code, StepView};
use std::alloc::{AllocError, Global};

/// A selection that is under way.
pub(crate) struct StackFrame {
    /// The step after the selector's.
    pub(crate) back: usize,
    /// The numbers of the chosen groups still to be entered before that; at most 16.
    pub(crate) pending: Vec<usize>,
}

// Written out, so that no caller proves again how its parts are dropped.
impl Drop for StackFrame {
    fn drop(self) {
        let StackFrame {
            back: _,
            pending: _,
        } = self;
    }
}

/// What a step is. This is `Code::look` with a clause that says what is to come from the step on.
pub(crate) fn look(code: &Code, step: usize) -> StepView
    requires { step < length (stages code.now) }
    ensures ahead { IsAhead code.now step result }
    ensures small { length (stages code.now) < 2 ^ 64 }
{
    code.look(step)
}

/// The first step of a group.
pub(crate) fn group_step(code: &Code, group: usize) -> usize
    requires { group < length (layout code.now) }
    ensures first { result ≡ first_step code.now group }
    ensures within { result < length (stages code.now) }
    ensures upcoming { upcoming_at code.now result
        ≡ map Prepare (group_at (layout code.now) group) }
{
    let start = &code.groups()[group];
    start.first
}

/// Enters the next group of the top frame, or takes the frame off; `None` if the stack is empty.
pub(crate) fn leave(code: &Code, stack: &mut Vec<StackFrame>) -> Option<usize>
    requires { All (IsStackFrame code.now) stack.old.items }
    ensures frames { All (IsStackFrame code.now) stack.new.items }
    ensures none { IfNone result ((stack.old.items ≡ []) × (stack.new.items ≡ [])) }
    ensures within { IfSome result (λ step. step < length (stages code.now)) }
    ensures rest { IfSome result (λ step.
        rest_of code.now step stack.new.items ≡ stack_upcoming code.now stack.old.items) }
    ensures left { IfSome result (λ step.
        left_at code.now step + stack_left code.now stack.new.items
        ≡ stack_left code.now stack.old.items) }
{
    if stack.is_empty() {
        return None;
    }
    let top = stack.len() - 1;
    let frame = &mut stack[top];
    if frame.pending.is_empty() {
        let back = frame.back;
        let _ = stack.pop();
        Some(back)
    } else {
        let group = frame.pending.remove(0);
        Some(group_step(code, group))
    }
}

/// Puts groups before what follows a pick, and goes to their first step.
pub(crate) fn enter(
    code: &Code,
    pick: usize,
    pending: Vec<usize>,
    stack: &mut Vec<StackFrame>,
) -> Result<usize, MachineError>
    requires next { pick + 1 < length (stages code.now) }
    requires small { length (stages code.now) < 2 ^ 64 }
    requires groups { All (λ g. g < length (layout code.now)) pending.items }
    requires frames { All (IsStackFrame code.now) stack.old.items }
    ensures frames { All (IsStackFrame code.now) stack.new.items }
    ensures within { IfOk result (λ step. step < length (stages code.now)) }
    ensures rest { IfOk result (λ step.
        rest_of code.now step stack.new.items
        ≡ map Prepare (entries_in code.now pending.items)
        ++ rest_of code.now (pick + 1) stack.old.items) }
    ensures err { OnErr result (stack.new.items ≡ stack.old.items) }
    ensures memory { IfErr result (λ e. e ≡ MachineError.OutOfMemory) }
{
    let back = pick + 1;
    stack.push(StackFrame { back, pending })?;
    match leave(code, stack) {
        Some(step) => Ok(step),
        None => Ok(back),
    }
}

/// Goes on from a step to the next one where a call is due, or to the end. While aborting, calls of
/// participants that are not abort-aware are passed over.
pub(crate) fn next_due(
    code: &Code,
    aborting: bool,
    from: usize,
    stack: &mut Vec<StackFrame>,
) -> usize
    requires from { from < length (stages code.now) }
    requires frames { All (IsStackFrame code.now) stack.old.items }
    ensures within { result < length (stages code.now) }
    ensures frames { All (IsStackFrame code.now) stack.new.items }
    ensures rested { slice_get (stages code.now) result ≡ Some AtReturn → stack.new.items ≡ [] }
    ensures rest { rest_of code.now result stack.new.items
        ≡ passed_if aborting (rest_of code.now from stack.old.items) }
{
    let mut step = from;
    loop {
        match look(code, step) {
            StepView::Return => match leave(code, stack) {
                None => return step,
                Some(next) => step = next,
            },
            StepView::Pick(_) => return step,
            StepView::Call(_, kind) => {
                if kind.abort_aware || !aborting {
                    return step;
                }
                step += 1;
            }
        }
    }
}

/// A copy of the frames. The only refusal is out of memory.
pub(crate) fn copy_frames(
    alloc: Global,
    stack: &[StackFrame],
) -> Result<Vec<StackFrame>, AllocError>
    ensures { IfOk result (λ copy. map shown copy.items ≡ map shown stack.now) }
{
    let mut copy = Vec::new(alloc);
    for frame in stack {
        let pending = Vec::from_slice(alloc, frame.pending.as_slice())?;
        copy.push(StackFrame {
            back: frame.back,
            pending,
        })?;
    }
    Ok(copy)
}
