//! Tests of update indicators, transactions, STP indicators and TIPLOCs. This file also defines
//! `FieldFault`, which gives the first column of the leftmost bad field.
ghost use Rattle.std.specs.Prelude.{◌≡◌};
ghost use Rattle.docker_model.specs.records.Clock.{is_blank};
ghost use Rattle.docker_model.specs.records.Field.{is_tiploc, is_new_tiploc, is_update_indicator, is_transaction, is_stp_indicator};

use crate::letter::{Extract, Stp, Transaction};
use thiserror::Error;

/// A checked field of a record is bad. The number is the first column of the leftmost bad field.
/// Columns count from 1.
#[derive(Clone, Copy, PartialEq, Eq, Debug, Error)]
#[error("Field {0}")]
pub struct FieldFault(pub u8);

/// Whether an update indicator is `F` or `U`.
pub(crate) fn is_update_indicator(field: &[u8; 1]) -> bool
    ensures { result ≡ is_update_indicator field.now }
{
    Extract::from_letter(field[0]).is_some()
}

/// Whether a transaction is `N`, `D` or `R`.
pub(crate) fn is_transaction(field: &[u8; 1]) -> bool
    ensures { result ≡ is_transaction field.now }
{
    Transaction::from_letter(field[0]).is_some()
}

/// Whether an STP indicator is `P`, `N`, `O` or `C`.
pub(crate) fn is_stp_indicator(field: &[u8; 1]) -> bool
    ensures { result ≡ is_stp_indicator field.now }
{
    Stp::from_letter(field[0]).is_some()
}

/// Whether the first character of a TIPLOC is not a space.
pub(crate) fn is_tiploc(field: &[u8; 7]) -> bool
    ensures { result ≡ is_tiploc field.now }
{
    field[0] != b' '
}

/// Whether a new TIPLOC is blank, or its first character is not a space.
pub(crate) fn is_new_tiploc(field: &[u8; 7]) -> bool
    ensures { result ≡ is_new_tiploc field.now }
{
    is_blank(field) || is_tiploc(field)
}

/// Whether a field is all spaces.
fn is_blank(field: &[u8]) -> bool
    ensures { result ≡ is_blank field.now }
{
    field.iter().all(|byte| *byte == b' ')
}
