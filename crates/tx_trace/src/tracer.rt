//! A tracer: it goes through the entries of an engine once, and gives the line of each.

ghost use Rattle.std.specs.Prelude.{◌≡◌, ◌<◌, ◌+◌, ◌∷◌, ℕ, true, false, List, Some, None};
ghost use Rattle.std.specs.Prelude.{IfOk, OnErr, OnOk, if◌then◌else◌};
ghost use Rattle.std.specs.Prelude.{not, ◌&&◌, option_map, string_bytes};
ghost use Rattle.tx_machine.specs.Contract.{IsSound, tx_state};
ghost use Rattle.tx_machine.specs.Due.{due_of};
ghost use Rattle.tx_machine.specs.Table.{next, opening};
ghost use Rattle.tx_machine.specs.declared.values.Item.TheVariants.{Answer, Choice};
ghost use Rattle.tx_machine.specs.declared.values.Item.TheVariants.{Told as ToldOne};
ghost use Rattle.tx_history.specs.declared.event.Event.{Event as Happening};
ghost use Rattle.tx_history.specs.Keys.{look};
ghost use Rattle.tx_history.specs.History.{is_over, is_restored, marked, outcome_of, reopened_at};
ghost use Rattle.tx_history.specs.Journal.{row as row_of};
ghost use Rattle.tx_history.specs.Views.{StartFits};
ghost use Rattle.tx_slots.specs.Rows.{AreKnown};
ghost use Rattle.tx_trace.specs.Lines.{json_in, line_in};
ghost use Rattle.tx_trace.specs.Follow.{AreFound, Concerns, Follows, IsBegun};
ghost use Rattle.tx_trace.specs.Follow.{IsLeft, IsNext, IsSubject};
ghost use Rattle.tx_trace.specs.Follow.{IsTraced, IsUnderWay, PutsMove};
ghost use Rattle.tx_trace.specs.Follow.{IsMachineOf, Tracks, is_given};
ghost use Rattle.tx_trace.specs.Follow.{count_of, earlier, gives_due, led_by, lines_given};
ghost use Rattle.tx_trace.specs.Follow.{next_recovered, over_after, shelved_after};
ghost use Rattle.tx_trace.specs.declared.shown.Shown.TheVariants.{Plain};

use crate::json::shown_json;
use crate::lines::shown_line;
use crate::shown::{Move, Shown, Standing};
use flow_asm::Code;
use std::alloc::{AllocError, Global};
use std::collections::BTreeMap;
use sw_participant::Bytes;
use tx_engine::{Engine, reopened, restored_by};
use tx_history::{Change, Entry, Event, Row};
use tx_machine::{Due, Machine, Reopened};
use tx_slots::{after_answer, after_choice, after_told};

/// Goes through the entries of an engine's history and gives the line of each. It keeps the machines of
/// the transactions under way, so that the next line costs what its entry costs.
pub struct Tracer {
    // How many entries it has gone through.
    done: usize,
    // The machines of the transactions that are not finished, by their ids. Of the journal's
    // transactions only those that had an entry.
    machines: BTreeMap<u64, Machine>,
    // How many contexts are on the shelf.
    shelved: usize,
    // Whether the context was restored since the last outcome.
    restored: bool,
    // The transactions of the journal up to this id are over.
    over: u64,
}

// Written out, so that no caller proves again how its parts are dropped.
impl Drop for Tracer {
    fn drop(self) {
        let Tracer {
            done: _,
            machines: _,
            shelved: _,
            restored: _,
            over: _,
        } = self;
    }
}

// What an entry shows, and what it moves.
#[derive(Drop)]
struct Traced {
    shown: Shown,
    // The transaction whose machine is kept from now on, or is no longer kept since it has ended.
    moved: Option<(u64, Option<Machine>)>,
}

impl Tracer {
    /// A tracer that has not gone through an entry. It takes no memory.
    pub fn new(alloc: Global, engine: &Engine) -> Tracer
        ensures follows { Follows engine.now result }
        ensures first { count_of result ≡ 0 }
    {
        // What the history began from is sound.
        let _history = engine.history();
        Tracer {
            done: 0,
            machines: BTreeMap::new(alloc),
            shelved: engine.opened().shelf.as_slice().len(),
            restored: false,
            over: 0,
        }
    }

    /// How many entries it has gone through.
    pub fn count(&self) -> usize
        ensures { result ≡ count_of self.now }
    {
        self.done
    }

    // The machine of a transaction under way.
    fn machine(&self, alloc: Global, engine: &Engine, id: u64) -> Result<Machine, AllocError>
        requires start { StartFits engine.now.flow engine.now.start }
        requires tracks { Tracks engine.now.flow engine.now.start
            (earlier self.now.done engine.now.past) self.now }
        requires under_way { IsUnderWay engine.now.flow engine.now.start
            (earlier self.now.done engine.now.past) id }
        ensures { IfOk result (IsMachineOf engine.now.flow engine.now.start
            (earlier self.now.done engine.now.past) id) }
    {
        match self.machines.get(&id) {
            Some(machine) => machine.copy(),
            None => {
                let rows = engine.opened().rows.as_slice();
                reopened_at(alloc, engine.code(), rows, id)
            }
        }
    }

    // The transaction under way that the entry is given for.
    fn subject(
        &self,
        alloc: Global,
        engine: &Engine,
        entry: &Entry,
    ) -> Result<Option<u64>, AllocError>
        requires { IsNext engine.now self.now entry.now }
        ensures { IfOk result (IsSubject engine.now.flow engine.now.start
            (earlier self.now.done engine.now.past) entry.now.event) }
    {
        match &entry.event {
            Event::Answered { .. } => Ok(row_id(&entry.change)),
            Event::Chose { .. } => Ok(row_id(&entry.change)),
            Event::Told { .. } => Ok(row_id(&entry.change)),
            Event::Recovered { .. } => {
                let rows = engine.opened().rows.as_slice();
                next_recovered(alloc, engine.code(), rows, self.over)
            }
            _ => Ok(None),
        }
    }

    // An entry that is given for a transaction under way.
    fn given(
        &self,
        alloc: Global,
        engine: &Engine,
        entry: &Entry,
        id: u64,
    ) -> Result<Traced, AllocError>
        requires next { IsNext engine.now self.now entry.now }
        requires concerns { Concerns engine.now.flow engine.now.start
            (earlier self.now.done engine.now.past) entry.now.event id }
        ensures { IfOk result (IsTraced engine.now.flow engine.now.start
            (earlier self.now.done engine.now.past) entry.now.event) }
    {
        let code = engine.code();
        let journalled = id < engine.opened().next_id;
        let event = &entry.event;
        let before = self.machine(alloc, engine, id)?;
        let after = led(alloc, code, &before, event)?;
        let restored = restored_after(self.restored, event);
        let shown = Shown::Moved(Move {
            id,
            recovering: journalled,
            before: Standing::of(
                code,
                &before,
                restores_at(code, &before, journalled, self.restored),
            ),
            after: Standing::of(
                code,
                &after,
                restores_at(code, &after, journalled, restored),
            ),
        });
        let kept = kept(code, after);
        Ok(Traced {
            shown,
            moved: Some((id, kept)),
        })
    }

    // A take, or an entry that is of no transaction under way.
    fn other(&self, alloc: Global, engine: &Engine, entry: &Entry) -> Result<Traced, AllocError>
        requires next { IsNext engine.now self.now entry.now }
        requires other { is_given entry.now.event ≡ false }
        ensures { IfOk result (IsTraced engine.now.flow engine.now.start
            (earlier self.now.done engine.now.past) entry.now.event) }
    {
        let code = engine.code();
        match &entry.event {
            // Each take puts a row, or says that there is none.
            Event::Taken { session } => match &entry.change.row {
                Some((id, row)) => begun(alloc, code, *session, *id, row),
                None => Ok(plain(self.shelved)),
            },
            _ => Ok(plain(self.shelved)),
        }
    }

    // What the entry shows, and what it moves.
    fn traced(&self, alloc: Global, engine: &Engine, entry: &Entry) -> Result<Traced, AllocError>
        requires { IsNext engine.now self.now entry.now }
        ensures { IfOk result (IsTraced engine.now.flow engine.now.start
            (earlier self.now.done engine.now.past) entry.now.event) }
    {
        match self.subject(alloc, engine, entry)? {
            Some(id) => self.given(alloc, engine, entry, id),
            None => self.other(alloc, engine, entry),
        }
    }

    // Goes through the entry.
    fn follow(&mut self, engine: &Engine, entry: &Entry, traced: Traced) -> Result<(), AllocError>
        requires next { IsNext engine.now self.old entry.now }
        requires traced { IsTraced engine.now.flow engine.now.start
            (earlier self.old.done engine.now.past) entry.now.event traced }
        requires few { self.old.done < 18446744073709551615 }
        ensures tracks { OnOk result (Tracks engine.now.flow engine.now.start
            (entry.now.event ∷ earlier self.old.done engine.now.past) self.new) }
        ensures done { OnOk result (self.new.done ≡ self.old.done + 1) }
        ensures stays { OnErr result (Tracks engine.now.flow engine.now.start
            (earlier self.old.done engine.now.past) self.new) }
        ensures kept { OnErr result (self.new.done ≡ self.old.done) }
    {
        let Traced { shown: _, moved } = traced;
        let over = over_after(self.over, engine.opened().next_id, &moved);
        put(&mut self.machines, moved)?;
        self.done += 1;
        self.shelved = shelved_after(self.shelved, &entry.change);
        self.restored = restored_after(self.restored, &entry.event);
        self.over = over;
        Ok(())
    }

    /// The line of the next entry, without a line feed; none if it has gone through all. The only
    /// refusal is out of memory, and the entry is then still the next one.
    ///
    /// The engine is the one that the tracer was made for, or goes on from what it was then: more
    /// entries may have come, but it was neither opened anew nor cut.
    pub fn next(&mut self, alloc: Global, engine: &Engine) -> Result<Option<String>, AllocError>
        requires { Follows engine.now self.old }
        ensures line { IfOk result (λ line.
            option_map string_bytes line ≡ line_in engine.now (count_of self.old + 1)) }
        ensures on { count_of self.new ≡ count_of self.old + lines_given result }
        ensures follows { Follows engine.now self.new }
    {
        let Some(entry) = engine.history().get(self.done) else {
            return Ok(None);
        };
        let traced = self.traced(alloc, engine, entry)?;
        let line = shown_line(alloc, engine.code(), traced.shown, &entry.event)?;
        self.follow(engine, entry, traced)?;
        Ok(Some(line))
    }

    /// The same line as an object of JSON, in ASCII. Lines in both forms may be taken in any order: each
    /// is that of the next entry.
    ///
    /// The engine is as in [`Tracer::next`].
    pub fn next_json(
        &mut self,
        alloc: Global,
        engine: &Engine,
    ) -> Result<Option<Vec<u8>>, AllocError>
        requires { Follows engine.now self.old }
        ensures line { IfOk result (λ line.
            option_map (λ l. l.items) line ≡ json_in engine.now (count_of self.old + 1)) }
        ensures on { count_of self.new ≡ count_of self.old + lines_given result }
        ensures follows { Follows engine.now self.new }
    {
        let Some(entry) = engine.history().get(self.done) else {
            return Ok(None);
        };
        let traced = self.traced(alloc, engine, entry)?;
        let line = shown_json(alloc, engine.code(), traced.shown, &entry.event)?;
        self.follow(engine, entry, traced)?;
        Ok(Some(line))
    }

    /// The line of the entry of this number, which it has not gone through yet; none if there is no
    /// such entry. It goes through the entries up to that one. The only refusal is out of memory.
    ///
    /// The engine is as in [`Tracer::next`].
    pub fn line_at(
        &mut self,
        alloc: Global,
        engine: &Engine,
        number: usize,
    ) -> Result<Option<String>, AllocError>
        requires follows { Follows engine.now self.old }
        requires ahead { count_of self.old < number }
        ensures line { IfOk result (λ line.
            option_map string_bytes line ≡ line_in engine.now number) }
        ensures follows { Follows engine.now self.new }
    {
        for _ in self.count() + 1..number {
            if self.next(alloc, engine)?.is_none() {
                return Ok(None);
            }
        }
        self.next(alloc, engine)
    }
}

// The machine, if the transaction has not ended.
fn kept(code: &Code, machine: Machine) -> Option<Machine>
    requires { IsSound code.now machine }
    ensures { IsLeft code.now machine result }
{
    if is_over(machine.due(code)) {
        None
    } else {
        Some(machine)
    }
}

// Whether nothing is due any more.
fn is_over(due: Due) -> bool
    ensures { result ≡ is_over due }
{
    matches!(due, Due::Shelve | Due::Done)
}

// The journal's row of this id.
fn find_row<'a>(rows: &'a [(u64, Row)], id: u64) -> Option<&'a Row>
    ensures { option_map (λ row. row.now) result ≡ look id rows.entry.now }
{
    for (number, row) in rows {
        if *number == id {
            return Some(row);
        }
    }
    None
}

// The machine of a transaction of the journal before its first entry; without a row, one that is over.
fn reopened_at(
    alloc: Global,
    code: &Code,
    rows: &[(u64, Row)],
    id: u64,
) -> Result<Machine, AllocError>
    requires { AreFound code.now rows.now }
    ensures sound { IfOk result (IsSound code.now) }
    ensures state { IfOk result (λ m. tx_state code.now m
        ≡ reopened_at code.now (look id rows.now)) }
{
    match find_row(rows, id) {
        Some(row) => reopened(alloc, code, row),
        None => Ok(Machine::reopened(
            alloc,
            code,
            Reopened {
                committing: false,
                joined: Vec::new(alloc),
                told: 0,
                tries: 0,
                saved: Vec::new(alloc),
            },
        )),
    }
}

// After an id, the first transaction of the journal with somebody to notify. There are at most 16 rows.
fn next_recovered(
    alloc: Global,
    code: &Code,
    rows: &[(u64, Row)],
    over: u64,
) -> Result<Option<u64>, AllocError>
    requires { AreKnown code.now rows.now }
    ensures { IfOk result (λ id. id ≡ next_recovered code.now rows.now over) }
{
    for (id, row) in rows {
        if over < *id {
            let machine = reopened(alloc, code, row)?;
            if !is_over(machine.due(code)) {
                return Ok(Some(*id));
            }
        }
    }
    Ok(None)
}

// A copy of the machine, as the event leaves it.
fn led(alloc: Global, code: &Code, machine: &Machine, event: &Event) -> Result<Machine, AllocError>
    requires sound { IsSound code.now machine.now }
    requires due { gives_due (tx_state code.now machine.now) event.now ≡ true }
    ensures sound { IfOk result (IsSound code.now) }
    ensures state { IfOk result (λ m. tx_state code.now m
        ≡ led_by code.now (tx_state code.now machine.now) event.now) }
{
    match event {
        Event::Answered { byte, context, .. } => {
            after_answer(code, machine, *byte, context.copy()?)
        }
        Event::Chose { text, .. } => after_choice(alloc, code, machine, text.as_str()),
        Event::Told { .. } => after_told(code, machine),
        _ => machine.copy(),
    }
}

// The `recover` call that is due to a transaction with this machine.
fn restores_at(
    code: &Code,
    machine: &Machine,
    journalled: bool,
    restored: bool,
) -> Option<(usize, bool)>
    requires { IsSound code.now machine.now }
    ensures { result ≡ (if journalled && not restored
        then marked code.now (outcome_of (due_of code.now (tx_state code.now machine.now)))
        else None) }
{
    if journalled && !restored {
        restored_by(code, machine.due(code))
    } else {
        None
    }
}

// Whether the context counts as restored after an event.
fn restored_after(restored: bool, event: &Event) -> bool
    ensures { (past : List Happening) → restored ≡ is_restored past
        → result ≡ is_restored (event.now ∷ past) }
{
    match event {
        Event::Recovered { .. } => true,
        Event::Told { session, .. } => *session != 0 && restored,
        _ => restored,
    }
}

// The id up to which the journalled transactions are over after a move.
fn over_after(over: u64, first: u64, moved: &Option<(u64, Option<Machine>)>) -> u64
    ensures { result ≡ over_after over first moved.now }
{
    match moved {
        Some((id, None)) if *id < first => *id,
        _ => over,
    }
}

// How many contexts are on the shelf after a change.
fn shelved_after(shelved: usize, change: &Change) -> usize
    requires { shelved < 9223372036854775808 }
    ensures { result ≡ shelved_after shelved change.now }
{
    if change.emptied {
        0
    } else if change.shelved.is_some() {
        shelved + 1
    } else {
        shelved
    }
}

// Keeps the machine under the id, or removes the one that is kept there.
fn put(
    machines: &mut BTreeMap<u64, Machine>,
    moved: Option<(u64, Option<Machine>)>,
) -> Result<(), AllocError>
    ensures put { OnOk result (PutsMove machines.old machines.new moved) }
    ensures refused { OnErr result (machines.new.entries ≡ machines.old.entries) }
{
    match moved {
        None => Ok(()),
        Some((id, None)) => {
            machines.remove(&id);
            Ok(())
        }
        Some((id, Some(machine))) => match machines.insert(id, machine) {
            Ok(_) => Ok(()),
            Err(_) => Err(AllocError),
        },
    }
}

// The id of the row that a change puts or drops.
fn row_id(change: &Change) -> Option<u64>
    ensures { result ≡ option_map (λ row. row.0) change.now.row }
{
    match &change.row {
        Some((id, _)) => Some(*id),
        None => None,
    }
}

// What a take shows, and the machine of the transaction.
fn begun(
    alloc: Global,
    code: &Code,
    session: usize,
    id: u64,
    row: &Option<Row>,
) -> Result<Traced, AllocError>
    ensures { IfOk result (λ t. (tries : ℕ) (saved : List ℕ)
        → row.now ≡ row_of code.now (opening code.now tries saved)
        → IsBegun code.now id session (opening code.now tries saved) t) }
{
    let Some(row) = row else {
        let due = Due::Done;
        return Ok(Traced {
            shown: Shown::Begun { id, session, due },
            moved: Some((id, None)),
        });
    };
    let saved = row.context.copy()?;
    let machine = Machine::start(alloc, code, row.tries, saved.into_vec());
    let due = machine.due(code);
    Ok(Traced {
        shown: Shown::Begun { id, session, due },
        moved: Some((id, Some(machine))),
    })
}

// What an entry shows if it is of no transaction under way: it moves nothing.
fn plain(shelved: usize) -> Traced
    ensures shown { result.shown ≡ Plain shelved }
    ensures moved { result.moved ≡ None }
{
    Traced {
        shown: Shown::Plain { shelved },
        moved: None,
    }
}
