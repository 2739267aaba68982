//! Runs of events at several offices.
ghost use Rattle.std.specs.Prelude.{◌≡◌, ℕ, ◌<◌, All, length, IfOk};
ghost use Rattle.docker_model.specs.run.Knowledge.{sent_count};
ghost use Rattle.docker_office.specs.RunMeaning.{events_meant};
ghost use Rattle.docker_office.specs.RunEnds.{HasGoodLimit, HasSummary, IsReplyAt, LeavesRun, TellsSummary};

use crate::event::Event;
use crate::exchange::Exchange;
use crate::steps::Holdings;
use cif_line::Memory;
use std::alloc::Global;

/// Runs the events in order at `offices` offices, which know nothing at first, and returns the
/// result. Fails with `Memory` only before the first event, if there is no room for the offices,
/// the messages or the replies. Otherwise each event gets one reply. A refused event has no effect.
///
/// Each reply is one that the definitions allow for its event after the earlier events. The reply
/// is `NoOffice` if the office doesn't exist, and `NoMessage` if the office exists and the message
/// doesn't. If both exist, a `Take` is carried out, or refused because its text has a fault or
/// because memory ran out. A `Send`, a `Deliver` or a `Reload` is carried out, or refused because
/// memory ran out. A `Horizon` is carried out. The state of each office is the summary of exactly
/// the files and the horizon that the office knows. Each message holds the text of the state that
/// the sending office had when it sent the message.
///
/// So the files and the horizon that an office knows determine the bytes of its state, and its
/// dockers, whatever was lost, repeated or reordered. The laws of `headline` state this.
pub fn run(alloc: Global, offices: usize, events: &[Event<'_>]) -> Result<Exchange, Memory>
    requires { All HasGoodLimit (events_meant events.now) }
    ensures run { IfOk result (LeavesRun offices (events_meant events.now)) }
    ensures one_each { IfOk result (λ left. length left.replies ≡ length events.now) }
    ensures reply { IfOk result (λ left. (place : ℕ) → place < length events.now
        → IsReplyAt offices (events_meant events.now) left.replies place) }
    ensures sent { IfOk result (λ left.
        length left.messages ≡ sent_count (events_meant events.now) left.replies) }
    ensures offices { IfOk result (λ left. length left.states ≡ offices) }
    ensures state { IfOk result (λ left. (office : ℕ) → office < offices
        → HasSummary offices (events_meant events.now) left office) }
    ensures message { IfOk result (λ left. (message : ℕ) → message < length left.messages
        → TellsSummary offices (events_meant events.now) left message) }
{
    let mut held = Holdings::new(alloc, offices, events.len())?;
    let mut replies = Vec::with_capacity(alloc, events.len())?;
    for event in events {
        replies.push_reserved(held.meet(alloc, event));
    }
    Ok(Exchange::of(held.offices, held.messages, replies))
}
