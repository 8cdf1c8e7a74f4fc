//! The step that calls the entry of a place. The place of a step is what `where` shows (`tests/step/debugger.cases`).

use crate::tests::flows::picking;
use flow_asm::step_at;
use std::test::Fail;

/// Groups and indices, and the steps: pick and its selection, last, return; pa, return; pb, return.
const STEPS: [(usize, usize, Option<usize>); 3] = [(0, 1, Some(2)), (2, 0, Some(6)), (0, 2, None)];

#[test]
fn steps_of_the_picking_flow(rt: HostRuntime) -> Result<(), Fail> {
    let code = picking(rt.alloc())?;
    for (group, index, wanted) in STEPS {
        assert!(rt; step_at(&code, group, index) == wanted, "{group}/{index}");
    }
    Ok(())
}
