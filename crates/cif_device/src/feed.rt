//! Takers, which take a text in pieces, and how a source feeds a taker.
ghost use Rattle.std.specs.Prelude.{◌≡◌, ℕ, ◌-◌, ◌^◌, ◌<◌, ◌++◌, true, false, List, length, IfErr, OnOk, OnErr, Err};
ghost use Rattle.cif_device.specs.Device.{CountsFailure, IsNotPassed};
ghost use Rattle.cif_device.specs.FeedEnds.{EndsFeeding, most_at_once};
ghost use Rattle.cif_device.specs.Taken.{AfterEach, IsTaking, LosesOnePieceMore};

use crate::device::Source;
use std::alloc::Global;

/// The greatest number of bytes that are read from a source at once.
pub const PIECE: usize = 65_536;

/// The reason why a taker wasn't fed all bytes of a source.
#[derive(Clone, Copy, Debug, PartialEq, Eq)]
pub enum FeedFault<F> {
    /// The source failed.
    Source,
    /// The allocator refused memory. No byte was read.
    Memory,
    /// The taker refused a piece. The inner fault says why.
    Refused(F),
}

/// A taker, which takes a text piece by piece until it refuses a piece.
pub trait Taker {
    /// The reason why the taker refuses a piece.
    type Fault: Drop;

    // The settings of a taker, such as a limit on the text. They stay the same while the taker
    // takes the text.
    ghost Settings: { Type 0 };

    // Whether this taker has taken this text with these settings, and refused no piece of it.
    ghost takes: { Self → Settings → List ℕ → Type 0 };

    // Whether this taker took this text with these settings, and then refused this piece with this
    // fault.
    ghost refuses: { Self → Settings → List ℕ → List ℕ → Self.Fault → Type 0 };

    /// Takes the next bytes of the text.
    fn take(&mut self, piece: &[u8]) -> Result<(), Self::Fault>
        ensures taken { OnOk result (AfterEach takes self.old (λ settings text.
            takes self.new settings (text ++ piece.now))) }
        ensures refused { IfErr result (λ fault. AfterEach takes self.old (λ settings text.
            refuses self.new settings text piece.now fault)) };

    // Each text that the taker can take has fewer than 2^64 bytes. So if a source is endless, the
    // taker refuses one of its pieces sooner or later.
    ghost bounded: { (taker : Self) (settings : Settings) (text : List ℕ)
        → takes taker settings text → length text < 2 ^ 64 };
}

/// Feeds a taker all bytes that are left in a source, in pieces of at most 65,536 bytes, and
/// returns the number of bytes. Reads nothing more after the source reports its end or the taker
/// refuses a piece. Terminates for every source: a taker can only take a bounded text, so it
/// refuses a piece of an endless source.
pub fn feed_all<S: Source, T: Taker>(
    alloc: Global,
    source: &mut S,
    taker: &mut T,
) -> Result<u64, FeedFault<T::Fault>>
    requires failures { S.failures source.old < 2 ^ 64 - 1 }
    requires taking { IsTaking T.takes taker.old }
    ensures ends { EndsFeeding T.takes T.refuses taker.old taker.new
        (S.left source.old) (S.left source.new) result }
    ensures no_further { AfterEach T.takes taker.old (λ settings text.
        LosesOnePieceMore T.takes most_at_once settings text
        (S.left source.old) (S.left source.new)) }
    ensures failures { CountsFailure (result ≡ Err FeedFault.Source)
        (S.failures source.old) (S.failures source.new) }
    ensures ended { OnOk result (S.ended source.new ≡ true) }
    ensures not_ended { S.ended source.old ≡ false → OnErr result (S.ended source.new ≡ false) }
    ensures not_passed { IsNotPassed (S.ended source.old)
        (S.passed source.old) (S.passed source.new) }
{
    let Ok(mut piece) = vec![in alloc; 0u8; PIECE] else {
        return Err(FeedFault::Memory);
    };
    let mut fed: u64 = 0;
    'pieces: loop {
        let Ok(n) = source.read(piece.as_mut_slice()) else {
            return Err(FeedFault::Source);
        };
        if n == 0 {
            return Ok(fed);
        }
        if let Err(fault) = taker.take(&piece[..n]) {
            return Err(FeedFault::Refused(fault));
        }
        fed += n as u64;
    }
}
