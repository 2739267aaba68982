//! Calls that allocate memory while they build a state from ledger items and entries, or while a
//! state receives ledger items and entries.

ghost use Rattle.std.specs.Prelude.{◌++◌};
ghost use Rattle.docker_model.specs.state.Stamp.{IsFloor};

use crate::copies::copied_row;
use crate::desk::Desk;
use crate::endings::ending_of;
use crate::texts::{compare_state, has_text, state_of};
use cif_line::Memory;
use docker_state::{Parts, Staging, State};

/// The call that a row tests.
#[derive(Clone, Copy, PartialEq, Eq)]
enum At {
    Item,
    Entry,
    Finish,
    Offer,
    Commit,
    Nowhere,
}

/// The call with this name.
fn call_of(call: &str) -> At {
    match call {
        "Parts::item" => At::Item,
        "Parts::entry" => At::Entry,
        "Parts::finish" => At::Finish,
        "Staging::offer" => At::Offer,
        _ => At::Commit,
    }
}

/// Prints the row if the row tests this call.
fn begin(desk: &Desk, here: bool) {
    if here {
        desk.begin();
    }
}

/// Prints how a call ended if the row tests this call.
fn end<T>(desk: &Desk, here: bool, done: &Result<T, Memory>) {
    if here {
        desk.end(ending_of(done));
    }
}

/// Builds a state again from its one ledger item and its one entry. Prints how the call `at` ended.
fn rebuilt(desk: &Desk, one: &State, at: At) -> Result<State, Memory> {
    let (items, rows) = (one.ledger(), one.entries());
    if items.len() != 1 {
        return Err(Memory);
    }
    if rows.len() != 1 {
        return Err(Memory);
    }
    let (item, row) = (items[0], &rows[0]);
    let copy = copied_row(desk.alloc(), row)?;
    let mut parts = Parts::new(desk.alloc());
    begin(desk, at == At::Item);
    let given = parts.item(item);
    end(desk, at == At::Item, &given);
    if let Err(refused) = given {
        let same = parts.ledger().is_empty() && parts.entries().is_empty();
        desk.report(same, "the parts are as they were");
        return Err(refused);
    }
    begin(desk, at == At::Entry);
    let given = parts.entry(copy.0, copy.1);
    end(desk, at == At::Entry, &given);
    if let Err(refused) = given {
        let same = parts.ledger() == items && parts.entries().is_empty();
        desk.report(same, "the parts are as they were");
        return Err(refused);
    }
    begin(desk, at == At::Finish);
    let made = parts.finish();
    end(desk, at == At::Finish, &made);
    made
}

/// Runs a row with the argument `STATE`. The state, which has one ledger item and one entry, is
/// built anew from its ledger item and its entry.
pub(crate) fn parts(desk: &Desk, call: &str, words: &[&str]) {
    let [name] = words else {
        return desk.trouble("STATE");
    };
    let one = state_of(desk, desk.text(name).as_slice());
    match rebuilt(desk, &one, call_of(call)) {
        Ok(made) => compare_state(desk, &made, name),
        Err(_) => match rebuilt(desk, &one, At::Nowhere) {
            Ok(made) => compare_state(desk, &made, name),
            Err(_) => desk.trouble("want of memory"),
        },
    }
}

/// Lets a state receive the ledger item and the entry of another state, which has only one of each.
fn receive(desk: &Desk, own: &mut State, other: &State, at: At) -> Result<(), Memory> {
    let (items, rows) = (other.ledger(), other.entries());
    if items.len() != 1 {
        return Err(Memory);
    }
    if rows.len() != 1 {
        return Err(Memory);
    }
    let (item, row) = (items[0], &rows[0]);
    let copy = copied_row(desk.alloc(), row)?;
    let mut ledger = Vec::new(desk.alloc());
    ledger.push(item)?;
    begin(desk, at == At::Offer);
    let mut staging = Staging::new(desk.alloc(), own, ledger)?;
    let offered = staging.offer(own, copy.0, copy.1);
    end(desk, at == At::Offer, &offered);
    match offered {
        Ok(()) => commit(desk, own, staging, at),
        Err(refused) => {
            let same = staging.is_empty() && staging.items() == items;
            desk.report(same, "what was staged is as it was");
            Err(refused)
        }
    }
}

/// Joins the staged ledger items and entries to the state.
fn commit(desk: &Desk, own: &mut State, staging: Staging, at: At) -> Result<(), Memory>
    requires { IsFloor (own.old.ledger ++ staging.items) staging.floor }
{
    let length = staging.len();
    begin(desk, at == At::Commit);
    let done = own.commit(staging);
    end(desk, at == At::Commit, &done);
    desk.report(length == 1, "one entry was staged");
    done
}

/// Runs a row with the arguments `STATE OTHER JOINED`. The first state receives the second state,
/// which has one ledger item and one entry. The first state must then equal the third state.
pub(crate) fn staging(desk: &Desk, call: &str, words: &[&str]) {
    let [own, other, wanted] = words else {
        return desk.trouble("STATE OTHER JOINED");
    };
    let before = desk.text(own);
    let mut state = state_of(desk, before.as_slice());
    let received = state_of(desk, desk.text(other).as_slice());
    if receive(desk, &mut state, &received, call_of(call)).is_err() {
        let same = has_text(desk, &state, before.as_slice());
        desk.report(same, "the state is as it was");
        if receive(desk, &mut state, &received, At::Nowhere).is_err() {
            desk.trouble("want of memory");
        }
    }
    compare_state(desk, &state, wanted);
}
