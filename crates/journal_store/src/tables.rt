//! Makes the journal's tables, all in one transaction.

ghost use Rattle.std.specs.Prelude.{◌≡◌, OnOk, false};
ghost use Rattle.sqlite.specs.Held.{state};
ghost use Rattle.sqlite.specs.State.{HasCleanDisk, Survives};
ghost use Rattle.sqlite_catalog.specs.Listing.{IsSound};
ghost use Rattle.journal_rows.specs.Tables.{tables_of};
ghost use Rattle.journal_tables.specs.Schema.{first_schema, four_schema, journal_schema};
ghost use Rattle.journal_tables.specs.Steps.{KeepsCommitted};
ghost use Rattle.journal_store.specs.Making.{Creates, Fills, IsMade, IsStage, new_tables};
ghost use Rattle.journal_store.specs.Making.{member_schema, meta_schema, no_schema, tx_schema};

use journal_tables::{add_meta, create_joined, create_part};
use sqlite::{Alter, Connection, Error, Transaction};

fn create_meta<S: Alter>(tx: &mut Transaction<'_, S>) -> Result<usize, Error>
    ensures makes { Creates no_schema meta_schema
        (state S.Store tx.old.conn.now) (state S.Store tx.new.conn.now) result }
    ensures keeps { KeepsCommitted S.Store tx.old.conn tx.new.conn }
{
    tx.execute(
        "CREATE TABLE meta (k INTEGER NOT NULL PRIMARY KEY, v INTEGER NOT NULL) STRICT",
        &[],
    )
}

fn create_tx<S: Alter>(tx: &mut Transaction<'_, S>) -> Result<usize, Error>
    ensures makes { Creates meta_schema tx_schema
        (state S.Store tx.old.conn.now) (state S.Store tx.new.conn.now) result }
    ensures keeps { KeepsCommitted S.Store tx.old.conn tx.new.conn }
{
    tx.execute(
        "CREATE TABLE tx (id INTEGER NOT NULL PRIMARY KEY, phase INTEGER NOT NULL, \
told INTEGER NOT NULL, doing TEXT NOT NULL, tries INTEGER NOT NULL, context BLOB NOT NULL) STRICT",
        &[],
    )
}

fn create_member<S: Alter>(tx: &mut Transaction<'_, S>) -> Result<usize, Error>
    ensures makes { Creates tx_schema member_schema
        (state S.Store tx.old.conn.now) (state S.Store tx.new.conn.now) result }
    ensures keeps { KeepsCommitted S.Store tx.old.conn tx.new.conn }
{
    tx.execute(
        "CREATE TABLE member (id INTEGER NOT NULL REFERENCES tx (id) ON DELETE CASCADE, \
place INTEGER NOT NULL, name TEXT NOT NULL, PRIMARY KEY (id, place)) STRICT",
        &[],
    )
}

fn create_shelf<S: Alter>(tx: &mut Transaction<'_, S>) -> Result<usize, Error>
    ensures makes { Creates member_schema four_schema
        (state S.Store tx.old.conn.now) (state S.Store tx.new.conn.now) result }
    ensures keeps { KeepsCommitted S.Store tx.old.conn tx.new.conn }
{
    tx.execute(
        "CREATE TABLE shelf (id INTEGER NOT NULL PRIMARY KEY, tries INTEGER NOT NULL, \
context BLOB NOT NULL) STRICT",
        &[],
    )
}

fn create_advice<S: Alter>(tx: &mut Transaction<'_, S>) -> Result<usize, Error>
    ensures makes { Creates four_schema first_schema
        (state S.Store tx.old.conn.now) (state S.Store tx.new.conn.now) result }
    ensures keeps { KeepsCommitted S.Store tx.old.conn tx.new.conn }
{
    tx.execute(
        "CREATE TABLE advice (id INTEGER NOT NULL, place INTEGER NOT NULL, body BLOB NOT NULL, \
PRIMARY KEY (id, place)) STRICT",
        &[],
    )
}

fn create_first<S: Alter>(tx: &mut Transaction<'_, S>) -> Result<(), Error>
    ensures makes { Creates no_schema first_schema
        (state S.Store tx.old.conn.now) (state S.Store tx.new.conn.now) result }
    ensures keeps { KeepsCommitted S.Store tx.old.conn tx.new.conn }
{
    create_meta(tx)?;
    create_tx(tx)?;
    create_member(tx)?;
    create_shelf(tx)?;
    create_advice(tx)?;
    Ok(())
}

fn create_all<S: Alter>(tx: &mut Transaction<'_, S>) -> Result<(), Error>
    ensures makes { Creates no_schema journal_schema
        (state S.Store tx.old.conn.now) (state S.Store tx.new.conn.now) result }
    ensures keeps { KeepsCommitted S.Store tx.old.conn tx.new.conn }
{
    create_first(tx)?;
    create_part(tx)?;
    create_joined(tx)?;
    Ok(())
}

fn fill<S: Alter>(tx: &mut Transaction<'_, S>) -> Result<(), Error>
    ensures fills { HasCleanDisk (state S.Store tx.new.conn.now)
        → IsStage no_schema (state S.Store tx.old.conn.now)
        → OnOk result (Fills (state S.Store tx.old.conn.now) (state S.Store tx.new.conn.now)) }
    ensures keeps { KeepsCommitted S.Store tx.old.conn tx.new.conn }
{
    create_all(tx)?;
    add_meta(tx, 1, 2)?;
    add_meta(tx, 2, 1)?;
    Ok(())
}

/// Makes all tables and the two rows of `meta`, or nothing.
pub fn make_journal<S: Alter>(conn: &mut Connection<S>) -> Result<(), Error>
    requires autocommit { conn.old.in_transaction ≡ false }
    ensures autocommit { conn.new.in_transaction ≡ false }
    ensures made { HasCleanDisk (state S.Store conn.new)
        → (state S.Store conn.old).now.schema ≡ no_schema
        → OnOk result (IsMade (state S.Store conn.new)) }
    ensures crash { Survives (state S.Store conn.old) (state S.Store conn.new)
        (λ db. (state S.Store conn.old).now.schema ≡ no_schema
        → IsSound journal_schema db × (tables_of db ≡ new_tables)) }
{
    let mut tx = conn.transaction();
    fill(&mut tx)?;
    tx.commit()
}
