//! A keeper that keeps all parts. An entry whose body ended before a given day lapses as soon as
//! the keeper is given the entry.
ghost use Rattle.std.specs.Prelude.{◌≡◌, ℕ, [], max};
ghost use Rattle.docker_model.specs.records.Date.{IsDay};
ghost use Rattle.docker_model.specs.state.State as states;
ghost use Rattle.docker_model.specs.state.State.{raise_horizon};
ghost use Rattle.state_text.specs.PartsSoFar.{horizon_meant};
ghost use Rattle.state_text.specs.Lapsing.{HasLapsed};
ghost use Rattle.state_text.specs.Receiving.{given_state};

use crate::given::Given;
use crate::keeper::{Maker, PartKeeper};
use cif_file::Key;
use cif_line::{Day, Memory};
use docker_join::Entry;
use docker_state::{LedgerItem, Parts, State};
use std::alloc::Global;
use std::marker::{Brand, Model, PhantomData};

/// A type that stands for a day. It exists only for clauses. Since the type is part of the keeper's
/// type, no call can replace the day by another day.
pub trait HorizonDay {
    // the day number
    ghost day: { ℕ };
}

impl HorizonDay for Brand {
    ghost day = { 0 };
}

/// All parts that the keeper was given, but with entries that have lapsed with the horizon `day`.
/// At the end a state without an index is made from them. So a body that lapses takes memory only
/// while it is read.
#[derive(Drop)]
pub struct Lapsing<D: HorizonDay> {
    parts: Parts,
    day: Day,
    given: Given,
    of: PhantomData<D>,
}

impl<D: HorizonDay> Model for Lapsing<D> {
    ghost Value = { states.State };

    ghost view = { λ it. given_state it.parts.ledger it.given.entries };

    ghost invariant = { λ it. HasLapsed D.day it.day it.parts it.given.entries };
}

impl<D: HorizonDay> Lapsing<D> {
    /// Returns a keeper that hasn't been given any part yet.
    pub fn new(alloc: Global, day: Day) -> Lapsing<D>
        requires { day ≡ D.day }
        ensures { result ≡ record { horizon = 0; ledger = []; entries = [] } }
    {
        Lapsing {
            parts: Parts::new(alloc),
            day,
            given: Given::new(),
            of: PhantomData,
        }
    }
}

/// The later of a day and a text's horizon, if the text has one.
fn later(horizon: Option<Day>, day: Day) -> Day
    ensures later { result ≡ max (horizon_meant horizon) day }
    ensures day { IsDay day }
{
    match horizon {
        Some(own) if own.number() > day.number() => own,
        _ => day,
    }
}

impl<D: HorizonDay> PartKeeper for Lapsing<D> {
    ghost given = { λ it. it };

    fn item(&mut self, item: LedgerItem) -> Result<(), Memory> {
        self.parts.item(item)
    }

    fn entry(&mut self, key: Key, mut entry: Entry) -> Result<(), Memory> {
        let given = Given::with(&self.given, &key, &entry);
        entry.lapse(self.day.number());
        self.parts.entry(key, entry)?;
        self.given = given;
        Ok(())
    }

    fn ledger(&self) -> &[LedgerItem] {
        self.parts.ledger()
    }

    fn len(&self) -> u64 {
        self.parts.entries().len() as u64
    }

    fn last(&self) -> Option<&Key> {
        self.parts.last()
    }
}

impl<D: HorizonDay> Maker for Lapsing<D> {
    type Made = State;

    ghost makes = { λ made state. made ≡ raise_horizon D.day state };

    fn finish(self, horizon: Option<Day>) -> Result<State, Memory> {
        let Lapsing {
            parts,
            day,
            given: _,
            of: _,
        } = self;
        Ok(parts.finish_unindexed_under(later(horizon, day)))
    }
}
