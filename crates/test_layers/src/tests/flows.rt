//! The flows that the tests share, and the engine that they play.

use flow_asm::{Code, assemble};
use flow_model::{Flow, Group};
use std::alloc::Global;
use std::test::Fail;
use sw_participant::{Kind, Sequence};
use tx_engine::Engine;
use tx_history::JournalView;

// The code of a flow of these groups, with one retry.
fn assembled(alloc: Global, groups: Vec<Group>) -> Result<Code, Fail> {
    let flow = Flow {
        retries: 1,
        groups: Sequence::new(groups),
    };
    flow.check()?;
    Ok(assemble(alloc, &flow)?)
}

/// `main`: the selector pick, then last; `a`: pa; `b`: pb.
pub fn picking(alloc: Global) -> Result<Code, Fail> {
    let mut groups = Vec::new(alloc);
    let main = [("pick", Kind::SELECTOR), ("last", Kind::PLAIN)];
    groups.push(Group::of(alloc, "main", &main)?)?;
    groups.push(Group::of(alloc, "a", &[("pa", Kind::PLAIN)])?)?;
    groups.push(Group::of(alloc, "b", &[("pb", Kind::PLAIN)])?)?;
    assembled(alloc, groups)
}

/// An engine of one session on a blank journal. Its flow is `main` with the participant p, which is plain.
pub fn opened(alloc: Global) -> Result<Engine, Fail> {
    let mut groups = Vec::new(alloc);
    groups.push(Group::of(alloc, "main", &[("p", Kind::PLAIN)])?)?;
    let code = assembled(alloc, groups)?;
    let view = JournalView::blank(alloc);
    if !view.ok() {
        return Err(Fail::new("a blank journal is refused"));
    }
    Ok(Engine::open(alloc, &code, &view, 1)?)
}
