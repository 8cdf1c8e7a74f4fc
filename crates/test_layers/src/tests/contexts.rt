//! The order in which a context refuses: no participant of the switch puts a bad name or so long a value, and scripts
//! are refused before. Bytes of contexts are in `tests/run/layouts.cases` and `tests/journal`, also random ones.

use std::test::Fail;
use sw_context::{Context, ContextError};

fn is_refused(context: &mut Context, name: &str, value: &[u8], wanted: ContextError) -> bool {
    match context.put(name, value) {
        Ok(()) => false,
        Err(error) => error == wanted,
    }
}

fn refuses_in_order(context: &mut Context, too_long: &[u8]) -> bool {
    is_refused(context, "", too_long, ContextError::BadName)
        && is_refused(context, "a b", b"", ContextError::BadName)
        && is_refused(context, "v", too_long, ContextError::ValueTooLong)
}

#[test]
fn refusals_come_in_order(rt: HostRuntime) -> Result<(), Fail> {
    let too_long = vec![in rt.alloc(); 0; 65_536]?;
    let mut context = Context::new(rt.alloc());
    assert!(rt; refuses_in_order(&mut context, &too_long));
    Ok(())
}
