//! A keeper that keeps all parts and makes a state without an index from them.
ghost use Rattle.std.specs.Prelude.{◌≡◌, []};
ghost use Rattle.docker_model.specs.state.State as states;

use crate::keeper::{Maker, PartKeeper};
use cif_file::Key;
use cif_line::{Day, Memory};
use docker_join::Entry;
use docker_state::{LedgerItem, Parts, State};
use std::alloc::Global;
use std::marker::Model;

/// All parts that the keeper was given. At the end a state without an index is made from them.
#[derive(Debug, Drop)]
pub struct Whole {
    parts: Parts,
}

impl Model for Whole {
    ghost Value = { states.State };

    ghost view = { λ whole. whole.parts };

    ghost invariant = { λ whole. whole.parts.horizon ≡ 0 };
}

impl Whole {
    /// Returns a keeper that hasn't been given any part yet.
    pub fn new(alloc: Global) -> Whole
        ensures { result ≡ record { horizon = 0; ledger = []; entries = [] } }
    {
        Whole {
            parts: Parts::new(alloc),
        }
    }
}

impl PartKeeper for Whole {
    ghost given = { λ whole. whole };

    fn item(&mut self, item: LedgerItem) -> Result<(), Memory> {
        self.parts.item(item)
    }

    fn entry(&mut self, key: Key, entry: Entry) -> Result<(), Memory> {
        self.parts.entry(key, entry)
    }

    fn ledger(&self) -> &[LedgerItem] {
        self.parts.ledger()
    }

    fn len(&self) -> u64 {
        self.parts.entries().len() as u64
    }

    fn last(&self) -> Option<&Key> {
        self.parts.last()
    }
}

impl Maker for Whole {
    type Made = State;

    ghost makes = { λ made state. made ≡ state };

    fn finish(self, horizon: Option<Day>) -> Result<State, Memory> {
        let Whole { parts } = self;
        match horizon {
            Some(day) => Ok(parts.finish_unindexed_under(day)),
            None => Ok(parts.finish_unindexed()),
        }
    }
}
