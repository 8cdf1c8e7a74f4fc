//! The outcome law: what holds of all calls of participants together, through every stop and restart.
//!
//! A *trail* is all that was done for one transaction: its calls, with their replies, and the stops
//! between them. Of every trail, and of the journal that goes with it, this holds (`specs/Trail.antt`):
//! - nobody is notified of the commit if anybody is notified of the abort;
//! - once the journal has no row of a transaction, each participant that joined was notified, as
//!   often as it joined;
//! - no stop comes between two preparations or selections, no preparation or selection follows an
//!   outcome, and a member is notified a second time only after a stop at which the journal did not
//!   have the first time yet;
//! - an advice that the journal holds is what the member gave last;
//! - the journal has given the id of each transaction for which a call was made, and a row says no
//!   less than what was done;
//! - whoever is notified after a restart is notified of the commit if the journal's row was committing,
//!   and otherwise of the abort.
//!
//! It is proved first for one transaction ([`one_keeps`]), from what the specified table gives
//! ([`table_is_sound`]), then for a core whose events name transactions ([`outcome_law`]), and for a
//! plant whose events name sessions ([`plant_law`]). There is no code here: the engine, the journal
//! and the stations keep what the small steps of `specs/Plant.antt` ask of them.
//!
//! # What is proved
//!
//! Laws without code, of every list of steps of a plant: takes, calls, records, writes, faults, stops
//! and cuts. The outcome law holds of all calls ever made and of the journal (`plant_law`,
//! `outcome_law`, `one_keeps`), if it held when the plant was made. It holds of a blank journal and no
//! calls. It says:
//!
//! - Nobody is committed where anybody is aborted. Once the journal has no row of a transaction, each
//!   participant was notified at no fewer places than it prepared without NO_JOIN (`IdLaw.one_way`,
//!   `all_told`).
//! - No stop comes between two preparations or selections, and none of them follows an outcome or a
//!   `recover`. A member is notified, or recovers, a second time only after a stop at which the journal
//!   did not say yet that it was notified (`IdLaw.ordered`, `clauses`).
//! - A member that is notified after a stop at which the journal had a row of the transaction is
//!   committed if that row was committing, and otherwise aborted (`IdLaw.decided`).
//! - An advice that the journal holds is what the last outcome call of its place gave
//!   (`IdLaw.advised`). The journal knows each transaction that was called for, and its row says no
//!   less than what was called.
//!
//! The specified table gives what the law needs (`table_is_sound`, `table_words`), the due call made by
//! its station is a call of the law (`station_calls`), and there are such runs (`some_run`). Premises,
//! which `outcome_plant` shows of the real plant: the journal's view fits (`ViewFits`), and each
//! journalled transaction with nobody left to notify is closed at an opening (`Shuts`). Nothing is said
//! of when a call is made, nor that only journalled transactions get a `recover` call.
#![tactic(auto)]

mod laws;

pub use laws::{
    clauses, one_keeps, outcome_law, plant_law, some_run, station_calls, table_is_sound,
    table_words,
};
