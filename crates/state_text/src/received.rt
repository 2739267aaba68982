//! A keeper that passes the parts to a state, which receives them.
ghost use Rattle.std.specs.Prelude.{◌≡◌, [], IsOk, IsErr};
ghost use Rattle.docker_model.specs.state.State.{State, IsValid, IsJoin};
ghost use Rattle.docker_model.specs.state.State as states;
ghost use Rattle.docker_state.specs.Parts.{under};
ghost use Rattle.state_text.specs.PartsSoFar.{horizon_meant};
ghost use Rattle.state_text.specs.Receiving.{given_of, IsReceiving};

use crate::keeper::PartKeeper;
use crate::receiving::{Receiver, Receiving};
use cif_file::Key;
use cif_line::{Day, Memory};
use docker_join::Entry;
use docker_state::{LedgerItem, State};
use std::alloc::Global;
use std::marker::Model;

/// The parts that a state has received.
#[derive(Drop)]
pub struct Received<R: Receiver> {
    receiving: Receiving<R>,
}

impl<R: Receiver> Model for Received<R> {
    ghost Value = { states.State };

    ghost view = { λ received. given_of received.receiving };

    ghost invariant = { λ received. IsReceiving R.own received.receiving };
}

impl<R: Receiver> Received<R> {
    /// Returns a keeper for the state `own`. It hasn't been given any part yet.
    pub fn new(alloc: Global, own: State) -> Received<R>
        requires valid { IsValid own }
        requires own { own ≡ R.own }
        ensures { result ≡ record { horizon = 0; ledger = []; entries = [] } }
    {
        Received {
            receiving: Receiving::new(alloc, own),
        }
    }

    /// Returns the join of the receiving state with the parts. The join has the later of the
    /// state's horizon and the text's horizon. If memory runs out, returns the receiving state
    /// unchanged.
    pub(crate) fn join(self, horizon: Option<Day>) -> (State, Result<(), Memory>)
        requires { IsValid (under (horizon_meant horizon) self) }
        ensures ok { IsOk result.1
            → IsJoin R.own (under (horizon_meant horizon) self) result.0 }
        ensures err { IsErr result.1 → result.0 ≡ R.own }
    {
        let Received { receiving } = self;
        let (mut joined, done) = receiving.finish();
        if done.is_ok() {
            if let Some(day) = horizon {
                joined.set_horizon(day);
            }
        }
        (joined, done)
    }

    /// Returns the receiving state unchanged.
    pub(crate) fn into_own(self) -> State
        ensures { result ≡ R.own }
    {
        let Received { receiving } = self;
        receiving.into_own()
    }
}

impl<R: Receiver> PartKeeper for Received<R> {
    ghost given = { λ received. received };

    fn item(&mut self, item: LedgerItem) -> Result<(), Memory> {
        self.receiving.item(item)
    }

    fn entry(&mut self, key: Key, entry: Entry) -> Result<(), Memory> {
        self.receiving.entry(key, entry)
    }

    fn ledger(&self) -> &[LedgerItem] {
        self.receiving.ledger()
    }

    fn len(&self) -> u64 {
        self.receiving.len()
    }

    fn last(&self) -> Option<&Key> {
        self.receiving.last()
    }
}
