//! Ledger items: what a state keeps of each file's header.
ghost use Rattle.std.specs.Prelude.{◌≡◌, ◌==◌};
ghost use Rattle.std.specs.Ordering.{on, as_partial_cmp, eq_by_cmp};
ghost use Rattle.std.specs.Cmp.{partial_equiv_from_equiv, on_equiv, on_total, eq_by_cmp_equiv, partial_order_from_total};
ghost use Rattle.std.proofs.Common.{refl};
ghost use Rattle.docker_model.specs.state.Stamp.{ledger_item_cmp, ledger_item_of};
ghost use Rattle.docker_model.specs.file.File.{first_record};
ghost use Rattle.cif_laws.proofs.orders.Orders.{ledger_item_total};
ghost use Rattle.docker_join.specs.Meaning.{file_stamp_meant};
ghost use Rattle.docker_state.specs.Meaning.{item_meant};

use cif_line::{Day, Extract, Header};
use docker_join::FileStamp;
use std::cmp::Ordering;

/// What a state keeps of a file's header. Ledger items are ordered by file stamp, then by update
/// indicator, then by last file reference.
#[derive(Clone, Copy, Debug)]
pub struct LedgerItem {
    /// The date of extract.
    pub day: Day,
    /// The time of extract, as a minute of the day from 0 to 1439.
    pub minute: u16,
    /// The current file reference.
    pub reference: [u8; 7],
    /// The update indicator: a full extract or an update.
    pub indicator: Extract,
    /// The last file reference.
    pub last_reference: [u8; 7],
}

impl LedgerItem {
    /// The stamp of the file: its date and time of extract, and its current reference.
    pub fn stamp(&self) -> FileStamp
        ensures { file_stamp_meant result ≡ (item_meant self.now).stamp }
    {
        FileStamp {
            day: self.day,
            minute: self.minute,
            reference: self.reference,
        }
    }

    /// Whether the file is a full extract.
    pub fn is_full(&self) -> bool
        ensures { result ≡ ((item_meant self.now).indicator == 70) }
    {
        self.indicator.letter() == b'F'
    }
}

/// The ledger item of a file with this header.
pub(crate) fn item_of(header: &Header) -> LedgerItem
    ensures { (file : _) → header.now ≡ first_record file
        → item_meant result ≡ ledger_item_of file }
{
    LedgerItem {
        day: header.day(),
        minute: header.minute(),
        reference: *header.reference(),
        indicator: header.extract(),
        last_reference: *header.last_reference(),
    }
}

impl PartialEq for LedgerItem {
    ghost eq = { on item_meant (eq_by_cmp ledger_item_cmp) };

    ghost laws = { partial_equiv_from_equiv
        (on_equiv item_meant (eq_by_cmp_equiv ledger_item_total)) };

    fn eq(&self, other: &LedgerItem) -> bool {
        self.cmp(other).is_eq()
    }
}

impl Eq for LedgerItem {
    ghost laws = { on_equiv item_meant (eq_by_cmp_equiv ledger_item_total) };
}

impl PartialOrd for LedgerItem {
    ghost partial_cmp = { as_partial_cmp (on item_meant ledger_item_cmp) };

    ghost laws = { partial_order_from_total (on_total item_meant ledger_item_total) };

    fn partial_cmp(&self, other: &LedgerItem) -> Option<Ordering> {
        Some(self.cmp(other))
    }
}

impl Ord for LedgerItem {
    ghost cmp = { on item_meant ledger_item_cmp };

    ghost total = { on_total item_meant ledger_item_total };

    ghost matches_partial_cmp = { λ a b. refl };

    ghost matches_eq = { λ a b. refl };

    fn cmp(&self, other: &LedgerItem) -> Ordering {
        self.stamp()
            .cmp(&other.stamp())
            .then_with(|| self.indicator.letter().cmp(&other.indicator.letter()))
            .then_with(|| self.last_reference.cmp(&other.last_reference))
    }
}
