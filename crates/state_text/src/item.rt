//! Reads ledger items.
ghost use Rattle.std.specs.Prelude.{◌≡◌, ◌↔◌, length, map, IsTrue, MatchOption, Err};
ghost use Rattle.docker_model.specs.state.State.{IsGoodItem, IsLedger};
ghost use Rattle.docker_model.specs.state.StateText.{item_in};
ghost use Rattle.docker_model.specs.state.StatePart.{IsAboveItems, RaisesFloor};
ghost use Rattle.docker_state.specs.Meaning.{item_meant};
ghost use Rattle.state_text.specs.Judged.{IsJudgedItem};

use crate::cause::StateCause;
use crate::fields::{field, is_text, number_16};
use crate::format::{INDICATOR_AT, ITEM, LAST_REFERENCE_AT, MINUTE_AT, REFERENCE_AT};
use cif_line::{Day, Extract};
use docker_state::LedgerItem;

/// The number of minutes in a day.
const MINUTES: u16 = 1440;

/// Reads a ledger item. Returns `None` if the item can't come from the header of any file.
fn item_in(bytes: &[u8]) -> Option<LedgerItem>
    requires { length bytes.now ≡ ITEM }
    ensures { MatchOption result (¬ IsGoodItem (item_in bytes.now))
        (λ item. (item_meant item ≡ item_in bytes.now) × IsGoodItem (item_in bytes.now)) }
{
    let minute = number_16(bytes, MINUTE_AT);
    let reference = *field(bytes, REFERENCE_AT);
    let last_reference = *field(bytes, LAST_REFERENCE_AT);
    let day = Day::from_number(number_16(bytes, 0))?;
    let indicator = Extract::from_letter(bytes[INDICATOR_AT])?;
    if minute >= MINUTES {
        return None;
    }
    if !is_text(&reference) {
        return None;
    }
    if !is_text(&last_reference) {
        return None;
    }
    Some(LedgerItem {
        day,
        minute,
        reference,
        indicator,
        last_reference,
    })
}

/// Whether an item is above the ledger's last item. Returns true if the ledger is empty.
fn is_above(ledger: &[LedgerItem], item: &LedgerItem) -> bool
    requires { IsLedger (map item_meant ledger.now) }
    ensures { IsTrue result ↔ IsAboveItems (map item_meant ledger.now) (item_meant item.now) }
{
    match ledger.last() {
        Some(last) => *last < *item,
        None => true,
    }
}

/// Whether an item is a full extract above the ledger's first item.
fn raises_floor(ledger: &[LedgerItem], item: &LedgerItem) -> bool
    ensures { IsTrue result ↔ RaisesFloor (map item_meant ledger.now) (item_meant item.now) }
{
    match ledger.first() {
        Some(first) => item.is_full() && first.stamp() < item.stamp(),
        None => false,
    }
}

/// Reads the next ledger item, or returns why it is bad.
pub(crate) fn judged_item(ledger: &[LedgerItem], bytes: &[u8]) -> Result<LedgerItem, StateCause>
    requires wide { length bytes.now ≡ ITEM }
    requires ledger { IsLedger (map item_meant ledger.now) }
    ensures { IsJudgedItem (map item_meant ledger.now) (item_in bytes.now) result }
{
    let Some(item) = item_in(bytes) else {
        return Err(StateCause::Item);
    };
    if !is_above(ledger, &item) {
        return Err(StateCause::Order);
    }
    if raises_floor(ledger, &item) {
        return Err(StateCause::Floor);
    }
    Ok(item)
}
