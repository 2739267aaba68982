//! Finds out whether a text is the text of a state, without building the state's text in memory.
ghost use Rattle.std.specs.Prelude.{◌≡◌, ◌↔◌, ◌+◌, ◌-◌, ◌<◌, ◌≤◌, [], length, take, Some, IsTrue, option_map};
ghost use Rattle.docker_model.specs.state.StateText.{dks_2, state_text};
ghost use Rattle.docker_desk.specs.Copying.{ComparesCopy, IsNoFront};

use crate::compared::Compared;
use crate::copying::Begun;
use cif_line::{Failed, Sink};
use docker_cmd::Office;
use std::marker::{Brand, Model, PhantomData};

/// A sink that compares what is written to it with a text. The sink takes the bytes that agree with
/// the text, and then the first byte that differs. After that byte, each write fails. The sink
/// allocates nothing. Contracts refer to the text through the type parameter `B`.
#[derive(Drop)]
pub(crate) struct Matching<'a, B: Begun> {
    text: &'a [u8],
    at: usize,
    other: Option<u8>,
    failures: u64,
    of: PhantomData<B>,
}

impl<'a, B: Begun> Model for Matching<'a, B> {
    ghost use Rattle.std.specs.Prelude.{◌≡◌, ◌<◌, ◌≤◌, length, take, IfSome, IsSome, Some};
    ghost use Rattle.docker_desk.specs.Copying.{IsNoFront, MatchView, with_other};

    ghost Value = { MatchView };

    ghost view = { λ matching. record {
      text = matching.text.now;
      taken = with_other (take matching.at matching.text.now) matching.other;
      failures = matching.failures;
    } };

    ghost invariant = { λ matching. (B.bytes ≡ Some matching.text.now)
        × (matching.at ≤ length matching.text.now)
        × (IfSome matching.other (λ _.
        IsNoFront (with_other (take matching.at matching.text.now) matching.other)
        matching.text.now))
        × (0 < matching.failures → IsSome matching.other) };
}

impl<'a, B: Begun> Matching<'a, B> {
    /// Starts the comparison with this text.
    pub(crate) fn new(text: &'a [u8]) -> Matching<'a, B>
        requires { B.bytes ≡ Some text.now }
        ensures text { result.text ≡ text.now }
        ensures taken { result.taken ≡ [] }
        ensures no_failure { result.failures ≡ 0 }
    {
        Matching {
            text,
            at: 0,
            other: None,
            failures: 0,
            of: PhantomData,
        }
    }

    /// Whether exactly the whole text was written. The sink has failed only if what was written
    /// isn't a prefix of the text.
    pub(crate) fn is_whole(&self) -> bool
        ensures text { B.bytes ≡ Some self.now.text }
        ensures whole { IsTrue result ↔ (self.now.taken ≡ self.now.text) }
        ensures parted { 0 < self.now.failures → IsNoFront self.now.taken self.now.text }
    {
        self.other.is_none() && self.at == self.text.len()
    }
}

impl<B: Begun> Sink for Matching<'_, B> {
    ghost taken = { λ matching. Some matching.taken };

    ghost failures = { λ matching. matching.failures };

    fn write(&mut self, piece: &[u8]) -> Result<usize, Failed> {
        if self.other.is_some() {
            self.failures += 1;
            return Err(Failed);
        }
        let n = matching_front(&self.text[self.at..], piece);
        if 0 < n {
            self.at += n;
            return Ok(n);
        }
        self.other = Some(piece[0]);
        Ok(1)
    }

    fn failures(&self) -> u64 {
        self.failures
    }
}

/// Returns the length of a common prefix of the text and the piece. The prefix needn't be the
/// longest one, but its length is 0 only if the first bytes differ or the text is empty.
fn matching_front(text: &[u8], piece: &[u8]) -> usize
    requires { 0 < length piece.now }
    ensures within { (result ≤ length text.now) × (result ≤ length piece.now) }
    ensures same { take result text.now ≡ take result piece.now }
    ensures none { result ≡ 0 → IsNoFront (take 1 piece.now) text.now }
{
    let mut n = piece.len();
    while 0 < n {
        if begins_with(text, &piece[..n]) {
            return n;
        }
        n /= 2;
    }
    0
}

/// Whether a text begins with `front`.
fn begins_with(text: &[u8], front: &[u8]) -> bool
    ensures { IsTrue result ↔ (take (length front.now) text.now ≡ front.now) }
{
    front.len() <= text.len() && &text[..front.len()] == front
}

/// Whether `text` is the text of the office's state.
fn is_text_of<B: Begun>(text: &[u8], office: &Office) -> bool
    requires { B.bytes ≡ Some text.now }
    ensures { IsTrue result ↔ (text.now ≡ state_text dks_2 office.now) }
{
    let mut sink: Matching<'_, B> = Matching::new(text);
    let sent = office.send(&mut sink);
    sent.is_ok() & sink.is_whole()
}

/// Compares a copy with the text of the office's state. Returns `Unknown` if there is no copy.
pub(crate) fn compared_with(copy: &Option<Vec<u8>>, office: &Office) -> Compared
    ensures { ComparesCopy result (option_map (λ copy. copy.items) copy.now)
        (state_text dks_2 office.now) }
{
    match copy {
        Some(copy) => {
            if is_text_of::<Brand>(copy.as_slice(), office) {
                Compared::Same
            } else {
                Compared::Other
            }
        }
        None => Compared::Unknown,
    }
}
