//! Entries that are put into a context.

ghost use Rattle.std.specs.Prelude.{◌≡◌, IfOk, OnErr, OnOk};
ghost use Rattle.sw_scripted.specs.Puts.{is_crowded, lacks_one, put_all, put_one};

use std::alloc::Global;
use sw_context::{Context, ContextError};
use sw_participant::{Bytes, NoMemory, Text};

/// An entry for a context.
#[derive(Drop)]
pub struct Put {
    pub name: Text,
    pub value: Bytes,
}

// Puts an entry; a context that does not take it stays as it is.
fn put_one(context: &mut Context, put: &Put) -> Result<(), NoMemory>
    ensures put { OnOk result (context.new ≡ put_one context.old put.now) }
    ensures kept { OnErr result (context.new ≡ context.old) }
{
    match context.put(put.name.as_str(), put.value.as_slice()) {
        Err(ContextError::OutOfMemory) => Err(NoMemory),
        _ => Ok(()),
    }
}

/// Puts entries into a context in their order; one that the context does not take, for instance because
/// it is full, is passed over. If memory is refused, the entries before that one have been put.
pub fn put_all(context: &mut Context, puts: &[Put]) -> Result<(), NoMemory>
    ensures { OnOk result (context.new ≡ put_all context.old puts.now) }
{
    for put in puts {
        put_one(context, put)?;
    }
    Ok(())
}

// Whether the context lacks the name of one of the entries.
fn lacks_one(context: &Context, puts: &[Put]) -> bool
    ensures { result ≡ lacks_one context.now puts.now }
{
    puts.iter()
        .any(|put| context.get(put.name.as_str()).is_none())
}

/// Whether a context without entries does not take all of these.
pub fn is_crowded(alloc: Global, puts: &[Put]) -> Result<bool, NoMemory>
    ensures { IfOk result (λ crowded. crowded ≡ is_crowded puts.now) }
{
    let mut context = Context::new(alloc);
    put_all(&mut context, puts)?;
    Ok(lacks_one(&context, puts))
}
