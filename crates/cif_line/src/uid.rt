//! The UIDs of trains, in basic schedules (BS) and associations (AA).
ghost use Rattle.std.specs.Prelude.{◌≡◌, ◌↔◌, ℕ, IsSome, IfSome, List};
ghost use Rattle.docker_model.specs.records.Record.{IsTextOfLength};

use crate::line::are_printable;
use std::marker::Model;

/// A UID: six printable bytes that all schedules of one train share.
#[derive(Clone, Copy, PartialEq, Eq, PartialOrd, Ord, Debug)]
pub struct Uid {
    bytes: [u8; 6],
}

impl Model for Uid {
    ghost Value = { List ℕ };

    ghost view = { λ uid. uid.bytes };

    ghost invariant = { λ uid. IsTextOfLength 6 uid.bytes };

    ghost inverse = { λ bytes. record { bytes = bytes } };
}

impl Uid {
    /// The UID in a field. Returns `None` if a byte isn't printable.
    pub fn from_field(field: &[u8; 6]) -> Option<Uid>
        ensures some { IsSome result ↔ IsTextOfLength 6 field.now }
        ensures value { IfSome result (λ uid. uid ≡ field.now) }
    {
        if are_printable(field) {
            Some(Uid { bytes: *field })
        } else {
            None
        }
    }

    /// The six bytes of the UID.
    pub fn bytes(&self) -> &[u8; 6]
        ensures bytes { result.now ≡ self.now }
        ensures text { IsTextOfLength 6 self.now }
    {
        &self.bytes
    }
}
