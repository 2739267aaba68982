//! TIPLOCs: codes of timing points, in TIPLOC records (TI, TA and TD) and in location records.
ghost use Rattle.std.specs.Prelude.{◌≡◌, ◌↔◌, ◌-◌, ◌++◌, ℕ, length, IsSome, IfSome, List};
ghost use Rattle.docker_model.specs.records.Field.{IsTiploc};
ghost use Rattle.docker_model.specs.records.PrintedTime.{spaces};
ghost use Rattle.cif_line.specs.Tiploc.{IsTiplocText};

use crate::line::are_printable;
use std::marker::Model;

/// A TIPLOC: the code of a timing point, padded with spaces to seven bytes. Its first byte isn't a
/// space.
#[derive(Clone, Copy, PartialEq, Eq, PartialOrd, Ord, Debug)]
pub struct Tiploc {
    bytes: [u8; 7],
}

impl Model for Tiploc {
    ghost Value = { List ℕ };

    ghost view = { λ tiploc. tiploc.bytes };

    ghost invariant = { λ tiploc. IsTiploc tiploc.bytes };

    ghost inverse = { λ bytes. record { bytes = bytes } };
}

impl Tiploc {
    /// Makes a TIPLOC from a text of one to seven bytes, each printable and not a space. Pads it
    /// with spaces to seven bytes. Returns `None` for any other text.
    pub fn from_text(text: &str) -> Option<Tiploc>
        ensures some { IsSome result ↔ IsTiplocText text.now }
        ensures value { IfSome result (λ tiploc.
            tiploc ≡ text.now ++ spaces (7 - length text.now)) }
    {
        let text = text.as_bytes();
        if text.is_empty() || text.len() > 7 || !text.iter().all(|byte| byte.is_ascii_graphic()) {
            return None;
        }
        let mut bytes = [b' '; 7];
        bytes[..text.len()].copy_from_slice(text);
        Some(Tiploc { bytes })
    }

    /// The TIPLOC in a field. Returns `None` if the first byte is a space or any byte isn't
    /// printable.
    pub fn from_field(field: &[u8; 7]) -> Option<Tiploc>
        ensures some { IsSome result ↔ IsTiploc field.now }
        ensures value { IfSome result (λ tiploc. tiploc ≡ field.now) }
    {
        if field[0] == b' ' || !are_printable(field) {
            return None;
        }
        Some(Tiploc { bytes: *field })
    }

    /// The seven bytes of the code, including the spaces that pad it.
    pub fn bytes(&self) -> &[u8; 7]
        ensures bytes { result.now ≡ self.now }
        ensures tiploc { IsTiploc self.now }
    {
        &self.bytes
    }
}
