//! A keeper that keeps all parts and makes a state with an index from them.
ghost use Rattle.std.specs.Prelude.{◌≡◌, []};
ghost use Rattle.docker_model.specs.state.State as states;

use crate::keeper::{Maker, PartKeeper};
use crate::whole::Whole;
use cif_file::Key;
use cif_line::{Day, Memory};
use docker_join::Entry;
use docker_state::{LedgerItem, State};
use std::alloc::Global;
use std::marker::Model;

/// All parts that the keeper was given. At the end a state with an index is made from them.
#[derive(Debug, Drop)]
pub struct Indexing {
    alloc: Global,
    whole: Whole,
}

impl Model for Indexing {
    ghost Value = { states.State };

    ghost view = { λ indexing. indexing.whole };
}

impl Indexing {
    /// Returns a keeper that hasn't been given any part yet.
    pub fn new(alloc: Global) -> Indexing
        ensures { result ≡ record { horizon = 0; ledger = []; entries = [] } }
    {
        Indexing {
            alloc,
            whole: Whole::new(alloc),
        }
    }
}

impl PartKeeper for Indexing {
    ghost given = { λ indexing. indexing };

    fn item(&mut self, item: LedgerItem) -> Result<(), Memory> {
        self.whole.item(item)
    }

    fn entry(&mut self, key: Key, entry: Entry) -> Result<(), Memory> {
        self.whole.entry(key, entry)
    }

    fn ledger(&self) -> &[LedgerItem] {
        self.whole.ledger()
    }

    fn len(&self) -> u64 {
        self.whole.len()
    }

    fn last(&self) -> Option<&Key> {
        self.whole.last()
    }
}

impl Maker for Indexing {
    type Made = State;

    ghost makes = { λ made state. made ≡ state };

    fn finish(self, horizon: Option<Day>) -> Result<State, Memory> {
        let Indexing { alloc, whole } = self;
        match whole.finish(horizon)?.indexed(alloc) {
            Ok(state) => Ok(state),
            Err(_) => Err(Memory),
        }
    }
}
