//! Joins a state with a state that is read from a source.
ghost use Rattle.std.specs.Prelude.{◌≡◌, ℕ, ◌-◌, ◌^◌, ◌<◌, List, IsErr};
ghost use Rattle.cif_device.specs.Device.{IsNotPassed};
ghost use Rattle.docker_model.specs.state.State.{IsValid};
ghost use Rattle.docker_model.specs.state.StateText.{dks_2};
ghost use Rattle.docker_model.specs.state.StateText as formats;
ghost use Rattle.docker_bytes.specs.ParserRead.{HasRead};
ghost use Rattle.docker_bytes.specs.ReadEnds.{EndsReading, EndsText};
ghost use Rattle.docker_bytes.specs.StateReading.{JoinsText};
ghost use Rattle.docker_bytes.specs.SourceRead.{JoinsState};

use crate::parser::Parser;
use crate::read::{ReadFault, fault_of, read_pieces};
use cif_line::Source;
use state_text::format::Format;
use state_text::{Received, Receiver, State};
use std::alloc::Global;
use std::marker::Brand;
use std::mem;

/// Joins a state with the state whose text a source holds. The text has the mark `DKS2`. The source
/// is read in the same way as by `read_state`, with the same faults. Of the received entries, only
/// the entries that the state will take over are kept. The state takes these entries over after the
/// end of the source, so a fault leaves the state unchanged.
pub fn join_state<S: Source>(
    alloc: Global,
    state: &mut State,
    source: &mut S,
    limit: u64,
) -> Result<(), ReadFault>
    requires { S.failures source.old < 2 ^ 64 - 1 }
    ensures reads { EndsReading S.left S.failures dks_2 limit
        (λ _. JoinsState dks_2 limit (S.left source.old) state.old state.new)
        source.old source.new result }
    ensures not_passed { IsNotPassed (S.ended source.old)
        (S.passed source.old) (S.passed source.new) }
    ensures unchanged { IsErr result → state.new ≡ state.old }
{
    // This call is made only for its contract, which says that the state is valid.
    let _ledger = state.ledger();
    let own = mem::replace(state, State::empty(alloc));
    let (after, result) = receive::<Brand, S>(alloc, own, source, limit);
    *state = after;
    result
}

/// Like `join_state`, for a state that is moved into the call and returned. In contracts, `R.own`
/// is this state.
fn receive<R: Receiver, S: Source>(
    alloc: Global,
    own: State,
    source: &mut S,
    limit: u64,
) -> (State, Result<(), ReadFault>)
    requires failures { S.failures source.old < 2 ^ 64 - 1 }
    requires valid { IsValid own }
    requires own { own ≡ R.own }
    ensures reads { EndsReading S.left S.failures dks_2 limit
        (λ _. JoinsState dks_2 limit (S.left source.old) own result.0)
        source.old source.new result.1 }
    ensures not_passed { IsNotPassed (S.ended source.old)
        (S.passed source.old) (S.passed source.new) }
    ensures unchanged { IsErr result.1 → result.0 ≡ own }
{
    let received: Received<R> = Received::new(alloc, own);
    let mut parser = Parser::new(alloc, Format::Dks2, limit, received);
    if let Err(fault) = read_pieces(alloc, source, &mut parser) {
        return (parser.into_own(), Err(fault));
    }
    join(parser)
}

/// Returns the join of the receiving state with the state whose text the parser was fed. After a
/// fault, returns the receiving state unchanged.
fn join<R: Receiver>(parser: Parser<Received<R>>) -> (State, Result<(), ReadFault>)
    ensures ends { (format : formats.Format) (limit : ℕ) (text : List ℕ) →
        HasRead parser format limit text →
        EndsText format limit text (λ _. JoinsText format limit text R.own result.0) result.1 }
    ensures back { IsErr result.1 → result.0 ≡ R.own }
{
    let (state, done) = parser.join();
    match done {
        Ok(()) => (state, Ok(())),
        Err(fault) => (state, Err(fault_of(fault))),
    }
}
