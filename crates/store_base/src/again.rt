//! Reads the store of a connection again.

ghost use Rattle.std.specs.Prelude.{◌≡◌, ◌≤◌, IfErr, IfOk, IsTrue, false};
ghost use Rattle.sqlite.specs.Held.{state};
ghost use Rattle.sqlite.specs.State.{HasCleanDisk};
ghost use Rattle.sqlite_trees.specs.Tree.{Trees};
ghost use Rattle.sqlite_trees.specs.View.{doubt};
ghost use Rattle.store_base.specs.Rest.{IsAtRest};

use sqlite::{Alter, Connection, Error, ErrorCode};
use std::alloc::Global;

/// Reads the schema of the last commit again, so that what the store says of its trees is known of
/// the connection. If that is refused, the store is handed back.
pub fn reread<S: Alter + Drop>(
    alloc: Global,
    conn: Connection<S>,
) -> Result<Connection<S>, (Error, S)>
    ensures fresh { IfOk result (λ c. c.in_transaction ≡ false) }
    ensures rests { IfOk result
        (λ c. HasCleanDisk (state S.Store c) → IsAtRest (state S.Store c)) }
    ensures clean { IfOk result (λ c.
        doubt (state S.Store conn).is_clean ≤ doubt (state S.Store c).is_clean) }
    ensures kept { IfOk result (λ c. HasCleanDisk (state S.Store c)
        → ((state S.Store c).committed.trees ≡ (state S.Store conn).committed.trees)
        × IsTrue (state S.Store conn).is_open) }
    ensures same { IfOk result (λ c. HasCleanDisk (state S.Store c)
        → (db : Trees) → S.Store.recovers c.store db → S.Store.recovers conn.store db) }
    ensures left { IfErr result (λ e.
        (db : Trees) → S.Store.recovers e.1 db → S.Store.recovers conn.store db) }
{
    let store = conn.into_store();
    if store.is_broken() {
        return Err((Error::SqliteFailure(ErrorCode::Closed), store));
    }
    Connection::over(alloc, store)
}
