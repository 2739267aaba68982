//! An excerpt whose place and day are determined by its type. A reader passes a state's parts to an
//! `ExcerptingAt`, as to any `PartKeeper`.
ghost use Rattle.std.specs.Prelude.{◌≡◌, []};
ghost use Rattle.docker_model.specs.state.State as states;

use crate::excerpt::Excerpt;
use crate::excerpting::Excerpting;
use crate::place_day::PlaceDay;
use cif_change::Key;
use cif_line::{Day, Memory, Tiploc};
use state_text::{Entry, LedgerItem, Maker, PartKeeper};
use std::alloc::Global;
use std::marker::{Model, PhantomData};

/// An `Excerpting` whose place and day are determined by the type `P`.
#[derive(Debug, Drop)]
pub struct ExcerptingAt<P: PlaceDay> {
    excerpting: Excerpting,
    of: PhantomData<P>,
}

impl<P: PlaceDay> Model for ExcerptingAt<P> {
    ghost Value = { states.State };

    ghost view = { λ it. it.excerpting.told };

    ghost invariant = { λ it.
        (it.excerpting.place ≡ P.place) × (it.excerpting.day ≡ P.day) };
}

impl<P: PlaceDay> ExcerptingAt<P> {
    /// Starts an excerpt. No part of a state has been given yet. The call allocates nothing.
    pub fn new(alloc: Global, place: Tiploc, day: Day) -> ExcerptingAt<P>
        requires place { place ≡ P.place }
        requires day { day ≡ P.day }
        ensures { result ≡ record { horizon = 0; ledger = []; entries = [] } }
    {
        ExcerptingAt {
            excerpting: Excerpting::new(alloc, place, day),
            of: PhantomData,
        }
    }
}

impl<P: PlaceDay> PartKeeper for ExcerptingAt<P> {
    ghost given = { λ it. it };

    fn item(&mut self, item: LedgerItem) -> Result<(), Memory> {
        self.excerpting.item(item)
    }

    fn entry(&mut self, key: Key, entry: Entry) -> Result<(), Memory> {
        self.excerpting.entry(key, entry)
    }

    fn ledger(&self) -> &[LedgerItem] {
        self.excerpting.ledger()
    }

    fn len(&self) -> u64 {
        self.excerpting.len()
    }

    fn last(&self) -> Option<&Key> {
        self.excerpting.last()
    }
}

impl<P: PlaceDay> Maker for ExcerptingAt<P> {
    type Made = Excerpt;

    ghost makes = { λ made state. made
        ≡ record { place = P.place; day = P.day; state = state } };

    fn finish(self, horizon: Option<Day>) -> Result<Excerpt, Memory> {
        let ExcerptingAt { excerpting, of: _ } = self;
        excerpting.finish(horizon)
    }
}
