//! The part of a state that is kept to list the state's files.
ghost use Rattle.std.specs.Prelude.{◌≡◌, map};
ghost use Rattle.docker_model.specs.state.State.{IsValid};
ghost use Rattle.docker_model.specs.state.State as states;
ghost use Rattle.docker_state.specs.Meaning.{item_meant};
ghost use Rattle.docker_state.specs.Parts.{under};
ghost use Rattle.state_text.specs.PartsSoFar.{horizon_meant};

use crate::ledger::Ledger;
use cif_line::{Day, Memory};
use state_text::{LedgerItem, Maker};
use std::marker::Model;

/// The ledger and the horizon of a state, without the entries. In contracts, the value of a
/// `KeptLedger` is the whole state. A `KeptLedger` is used only to list the state's files, and
/// can't be written, joined or sent.
#[derive(Debug, Drop)]
pub struct KeptLedger {
    ledger: Ledger,
    horizon: Option<Day>,
}

impl Model for KeptLedger {
    ghost Value = { states.State };

    ghost view = { λ it. under (horizon_meant it.horizon) it.ledger };

    ghost invariant = { λ it. IsValid (under (horizon_meant it.horizon) it.ledger) };
}

impl KeptLedger {
    /// The ledger of a state, with the state's horizon if it has one.
    pub(crate) fn of(ledger: Ledger, horizon: Option<Day>) -> KeptLedger
        requires { IsValid (under (horizon_meant horizon) ledger) }
        ensures { result ≡ under (horizon_meant horizon) ledger }
    {
        KeptLedger { ledger, horizon }
    }

    /// The ledger items, in ascending order.
    pub fn items(&self) -> &[LedgerItem]
        ensures items { map item_meant result.now ≡ self.now.ledger }
        ensures valid { IsValid self.now }
    {
        self.ledger.items()
    }
}

impl Maker for Ledger {
    type Made = KeptLedger;

    ghost makes = { λ made state. made ≡ state };

    /// Returns the ledger with the horizon. The call allocates nothing, so it never returns
    /// `Memory`.
    fn finish(self, horizon: Option<Day>) -> Result<KeptLedger, Memory> {
        Ok(KeptLedger::of(self, horizon))
    }
}
