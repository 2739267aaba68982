//! The history of the calls to an input and an output, which only proofs see. Such a history takes
//! no memory, and its functions do nothing at run time.
ghost use Rattle.std.specs.Prelude.{◌≡◌, List, [], ◌∷◌, ◌++◌};
ghost use Rattle.std.specs.Borrow.{ftrue};
ghost use Rattle.docker_host.specs.Exchanges.{Exchange};
ghost use Rattle.docker_host.specs.Calls.{exchange_of};

use std::marker::Model;

/// The calls to an input and an output, oldest first. Only proofs see them.
#[derive(Drop)]
pub struct Exchanges {
    pub ghost events: { List Exchange },
}

impl Model for Exchanges {
    ghost also_owns = { λ _. ftrue };
}

/// A call that is about to be added to a history of exchanges.
#[derive(Clone, Copy, Drop)]
pub enum StreamCall<'a> {
    /// The input was read, and returned these bytes.
    Read(&'a [u8]),
    /// The input was read, and failed.
    Unread,
    /// The output was written to, and took these bytes.
    Wrote(&'a [u8]),
    /// The output was written to, and failed.
    Unwritten,
}

impl Exchanges {
    /// Returns a history without exchanges.
    pub fn new() -> Exchanges
        ensures { result.events ≡ [] }
    {
        Exchanges {}
    }

    /// Returns the history with this call appended.
    pub fn then(&self, _call: &StreamCall<'_>) -> Exchanges
        ensures { result.events ≡ self.now.events ++ exchange_of _call.now ∷ [] }
    {
        Exchanges {}
    }
}
