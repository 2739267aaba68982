//! The steps of a run, one for each event.
ghost use Rattle.std.specs.Prelude.{◌≡◌, ◌≢◌, ◌+◌, ◌^◌, ◌<◌, ◌≤◌, [], All, length, vec_len, vec_capacity, IfSome, IfNone, IsOk, IsErr, IfOk, IfErr, Some, Err};
ghost use Rattle.cif_file.specs.SourceRead.{RefusesText};
ghost use Rattle.docker_bytes.specs.SourceRead.{JoinsState, ReadsState, RefusesState};
ghost use Rattle.docker_model.specs.state.StateText.{dks_2, state_text};
ghost use Rattle.docker_model.specs.state.Summary.{IsSummary};
ghost use Rattle.docker_model.specs.run.Run.{KnownSets, take_file, send_state, deliver, reload, horizon_event};
ghost use Rattle.docker_model.specs.run.Knowledge.{IsGoodEvent, message_text};
ghost use Rattle.docker_office.specs.Faults.{IsOfFile, IsOfState};
ghost use Rattle.docker_office.specs.Office.{TakesFile};
ghost use Rattle.docker_office.specs.RunMeaning.{IsMissing, event_meant, reply_for, texts_of};
ghost use Rattle.docker_office.specs.RunEnds.{HasGoodLimit};

use crate::event::Event;
use crate::fault::OfficeFault;
use crate::office::Office;
use crate::reply::{Reply, RunFault};
use cif_file::MOST_RECORDS;
use cif_line::{Bytes, Day, Kept, Memory, PIECE};
use docker_bytes::encoded_len;
use std::alloc::Global;

/// The offices, and the messages that they have sent.
#[derive(Debug, Drop)]
pub(crate) struct Holdings {
    pub(crate) offices: Vec<Office>,
    pub(crate) messages: Vec<Kept>,
}

impl Holdings {
    ghost use Rattle.docker_office.specs.RunSteps.{AreOf, MeetsEvent};

    /// Returns `offices` offices that know nothing, with room for `messages` messages. Returns
    /// `Memory` if there isn't enough memory for the offices and the messages.
    pub(crate) fn new(alloc: Global, offices: usize, messages: usize) -> Result<Holdings, Memory>
        ensures offices { IfOk result (λ held. length held.offices.items ≡ offices) }
        ensures each { IfOk result (λ held. All (IsSummary [] 0) held.offices.items) }
        ensures messages { IfOk result (λ held. held.messages.items ≡ []) }
        ensures room { IfOk result (λ held. messages ≤ vec_capacity held.messages) }
    {
        let mut known = Vec::with_capacity(alloc, offices)?;
        let messages = Vec::with_capacity(alloc, messages)?;
        for _ in 0..offices {
            known.push_reserved(Office::new(alloc));
        }
        Ok(Holdings {
            offices: known,
            messages,
        })
    }

    /// Carries out or refuses an event, and returns the reply.
    pub(crate) fn meet(&mut self, alloc: Global, event: &Event<'_>) -> Reply
        requires limit { HasGoodLimit (event_meant event.now) }
        requires room { vec_len self.old.messages < vec_capacity self.old.messages }
        ensures good { IsGoodEvent dks_2 (event_meant event.now) }
        ensures met { (known : KnownSets) → AreOf known self.old
            → MeetsEvent known (event_meant event.now) result self.new }
        ensures room { vec_capacity self.new.messages ≡ vec_capacity self.old.messages }
        ensures few { vec_len self.new.messages ≤ vec_len self.old.messages + 1 }
    {
        match event {
            Event::Take {
                office,
                text,
                limit,
            } => self.take(*office, text, *limit),
            Event::Send { office } => self.send(alloc, *office),
            Event::Deliver { office, message } => self.deliver(*office, *message),
            Event::Reload { office, message } => self.reload(*office, *message),
            Event::Horizon { office, day } => self.set_horizon(*office, *day),
        }
    }

    /// Returns why an event can't be carried out: the office doesn't exist, or the office exists
    /// and the message doesn't. Returns `None` if both exist.
    fn missing(&self, office: usize, message: usize) -> Option<RunFault>
        ensures some { IfSome result (IsMissing (length self.now.offices.items)
            (length self.now.messages.items) office message) }
        ensures office { IfNone result (office < length self.now.offices.items) }
        ensures message { IfNone result (message < length self.now.messages.items) }
    {
        if office >= self.offices.len() {
            return Some(RunFault::NoOffice);
        }
        if message >= self.messages.len() {
            return Some(RunFault::NoMessage);
        }
        None
    }

    /// Has an office take the file with this text.
    fn take(&mut self, office: usize, text: &[u8], limit: u32) -> Reply
        requires { limit ≤ MOST_RECORDS }
        ensures met { (known : KnownSets) → AreOf known self.old
            → MeetsEvent known (take_file office text.now limit) result self.new }
        ensures messages { self.new.messages ≡ self.old.messages }
    {
        if office >= self.offices.len() {
            return Reply::Refused(RunFault::NoOffice);
        }
        reply_to(take_text(&mut self.offices[office], text, limit))
    }

    /// Has an office send its state. If memory runs out, no message is sent.
    fn send(&mut self, alloc: Global, office: usize) -> Reply
        requires { vec_len self.old.messages < vec_capacity self.old.messages }
        ensures met { (known : KnownSets) → AreOf known self.old
            → MeetsEvent known (send_state office) result self.new }
        ensures room { vec_capacity self.new.messages ≡ vec_capacity self.old.messages }
        ensures few { vec_len self.new.messages ≤ vec_len self.old.messages + 1 }
    {
        if office >= self.offices.len() {
            return Reply::Refused(RunFault::NoOffice);
        }
        match message_of(alloc, &self.offices[office]) {
            Ok(message) => {
                self.messages.push_reserved(message);
                Reply::Done
            }
            Err(Memory) => Reply::Refused(RunFault::Office(OfficeFault::Memory)),
        }
    }

    /// Has an office receive a message.
    fn deliver(&mut self, office: usize, message: usize) -> Reply
        ensures met { (known : KnownSets) → AreOf known self.old
            → MeetsEvent known (deliver office message) result self.new }
        ensures messages { self.new.messages ≡ self.old.messages }
    {
        match self.missing(office, message) {
            Some(fault) => Reply::Refused(fault),
            None => {
                let text = text_at(self.messages.as_slice(), message);
                reply_to(receive_text(&mut self.offices[office], text))
            }
        }
    }

    /// Has an office replace its state with the state in a message.
    fn reload(&mut self, office: usize, message: usize) -> Reply
        ensures met { (known : KnownSets) → AreOf known self.old
            → MeetsEvent known (reload office message) result self.new }
        ensures messages { self.new.messages ≡ self.old.messages }
    {
        match self.missing(office, message) {
            Some(fault) => Reply::Refused(fault),
            None => {
                let text = text_at(self.messages.as_slice(), message);
                reply_to(reload_text(&mut self.offices[office], text))
            }
        }
    }

    /// Sets the horizon of an office.
    fn set_horizon(&mut self, office: usize, day: Day) -> Reply
        ensures good { IsGoodEvent dks_2 (horizon_event office day) }
        ensures met { (known : KnownSets) → AreOf known self.old
            → MeetsEvent known (horizon_event office day) result self.new }
        ensures messages { self.new.messages ≡ self.old.messages }
    {
        // This call is made only for its contract, which says that a day's number is at most 36524.
        let _number = day.number();
        if office >= self.offices.len() {
            return Reply::Refused(RunFault::NoOffice);
        }
        self.offices[office].set_horizon(day);
        Reply::Done
    }
}

/// Has an office take the file with this text.
fn take_text(office: &mut Office, text: &[u8], limit: u32) -> Result<(), OfficeFault>
    requires { limit ≤ MOST_RECORDS }
    ensures ok { IsOk result → TakesFile limit (Some text.now) office.old office.new }
    ensures unchanged { IsErr result → office.new ≡ office.old }
    ensures file { (fault : _) → result ≡ Err (OfficeFault.File fault)
        → RefusesText limit (Some text.now) fault }
    ensures source { result ≢ Err OfficeFault.Source }
    ensures only { IfErr result IsOfFile }
{
    office.take(&mut Bytes::new(text, PIECE), limit)
}

/// Has an office receive the state with this text.
fn receive_text(office: &mut Office, text: &[u8]) -> Result<(), OfficeFault>
    ensures ok { IsOk result
        → JoinsState dks_2 (length text.now) (Some text.now) office.old office.new }
    ensures unchanged { IsErr result → office.new ≡ office.old }
    ensures state { (fault : _) → result ≡ Err (OfficeFault.State fault)
        → RefusesState dks_2 (length text.now) (Some text.now) fault }
    ensures source { result ≢ Err OfficeFault.Source }
    ensures only { IfErr result IsOfState }
{
    office.receive(&mut Bytes::new(text, PIECE), text.len() as u64)
}

/// Has an office replace its state with the state that has this text.
fn reload_text(office: &mut Office, text: &[u8]) -> Result<(), OfficeFault>
    ensures ok { IsOk result → ReadsState dks_2 (length text.now) (Some text.now) office.new }
    ensures unchanged { IsErr result → office.new ≡ office.old }
    ensures state { (fault : _) → result ≡ Err (OfficeFault.State fault)
        → RefusesState dks_2 (length text.now) (Some text.now) fault }
    ensures source { result ≢ Err OfficeFault.Source }
    ensures only { IfErr result IsOfState }
{
    office.reload(&mut Bytes::new(text, PIECE), text.len() as u64)
}

/// Returns the message that an office sends: the text of its state. Room for the whole text is
/// reserved before the first byte is written. Returns `Memory` if there isn't enough room, or if
/// the length doesn't fit in a `usize`.
fn message_of(alloc: Global, office: &Office) -> Result<Kept, Memory>
    ensures { IfOk result (λ kept. kept.taken ≡ state_text dks_2 office.now) }
{
    let Ok(room) = usize::try_from(encoded_len(office.state())) else {
        return Err(Memory);
    };
    let mut message = Kept::new(alloc, room)?;
    // A sink in memory fails only if it is full.
    match office.send(&mut message) {
        Ok(()) => Ok(message),
        Err(_) => Err(Memory),
    }
}

/// Returns the text of a message.
fn text_at(messages: &[Kept], message: usize) -> &[u8]
    requires { message < length messages.now }
    ensures text { result.now ≡ message_text (texts_of messages.now) message }
    ensures short { length result.now < 2 ^ 64 }
{
    messages[message].bytes()
}

/// Returns the reply that an event gets if the call to its office has this result.
fn reply_to(answer: Result<(), OfficeFault>) -> Reply
    ensures { result ≡ reply_for answer }
{
    match answer {
        Ok(()) => Reply::Done,
        Err(fault) => Reply::Refused(RunFault::Office(fault)),
    }
}
