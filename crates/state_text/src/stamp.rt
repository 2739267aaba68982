//! Reads stamps.
ghost use Rattle.std.specs.Prelude.{◌≡◌, ◌<◌, ◌↔◌, length, map, IsTrue, MatchOption, Contains};
ghost use Rattle.docker_model.specs.records.Date.{last_day};
ghost use Rattle.docker_model.specs.state.State.{IsLedger, IsStampIn};
ghost use Rattle.docker_model.specs.state.StateText.{stamp_in};
ghost use Rattle.docker_join.specs.Meaning.{file_stamp_meant, stamp_meant};
ghost use Rattle.docker_state.specs.Meaning.{item_meant};
ghost use Rattle.state_text.specs.PartsSoFar.{file_stamps};

use crate::fields::{field, number_16, number_32};
use crate::format::{MINUTE_AT, NUMBER_AT, REFERENCE_AT, STAMP};
use cif_line::Day;
use docker_join::{FileStamp, Stamp};
use docker_state::LedgerItem;

/// The least record number that a change can have.
const FIRST_NUMBER: u32 = 2;

/// The greatest record number that a change can have.
const LAST_NUMBER: u32 = 4_294_967_294;

/// Reads a stamp. Returns `None` if its day number is above 36524, the last day.
fn stamp_in(bytes: &[u8]) -> Option<Stamp>
    requires { length bytes.now ≡ STAMP }
    ensures { MatchOption result (last_day < (stamp_in bytes.now).file.moment.day)
        (λ stamp. stamp_meant stamp ≡ stamp_in bytes.now) }
{
    let minute = number_16(bytes, MINUTE_AT);
    let reference = *field(bytes, REFERENCE_AT);
    let number = number_32(bytes, NUMBER_AT);
    let day = Day::from_number(number_16(bytes, 0))?;
    let file = FileStamp {
        day,
        minute,
        reference,
    };
    Some(Stamp { file, number })
}

/// Finds out by binary search whether this file is in the ledger.
fn has_file(ledger: &[LedgerItem], file: &FileStamp) -> bool
    requires { IsLedger (map item_meant ledger.now) }
    ensures { IsTrue result
        ↔ Contains (file_stamps (map item_meant ledger.now)) (file_stamp_meant file.now) }
{
    match ledger.binary_search_by(|item| item.stamp().cmp(file)) {
        Ok(_) => true,
        Err(_) => false,
    }
}

/// Reads a stamp. Returns `None` if no change from a file in the ledger can have this stamp.
pub(crate) fn judged_stamp(ledger: &[LedgerItem], bytes: &[u8]) -> Option<Stamp>
    requires wide { length bytes.now ≡ STAMP }
    requires ledger { IsLedger (map item_meant ledger.now) }
    ensures { MatchOption result (¬ IsStampIn (map item_meant ledger.now) (stamp_in bytes.now))
        (λ stamp. (stamp_meant stamp ≡ stamp_in bytes.now)
        × IsStampIn (map item_meant ledger.now) (stamp_in bytes.now)) }
{
    let stamp = stamp_in(bytes)?;
    if stamp.number < FIRST_NUMBER {
        return None;
    }
    if stamp.number > LAST_NUMBER {
        return None;
    }
    if !has_file(ledger, &stamp.file) {
        return None;
    }
    Some(stamp)
}
