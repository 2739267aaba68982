//! Keys, which identify what a change puts or deletes, and the order of keys.
ghost use Rattle.std.specs.Prelude.{◌≡◌};
ghost use Rattle.std.specs.Ordering.{on, as_partial_cmp, eq_by_cmp};
ghost use Rattle.std.specs.Cmp.{partial_equiv_from_equiv, on_equiv, on_total, eq_by_cmp_equiv, partial_order_from_total};
ghost use Rattle.docker_model.specs.state.Op.{key_cmp, key_tag};
ghost use Rattle.cif_laws.proofs.orders.Orders.{key_total};
ghost use Rattle.std.proofs.Common.{refl};
ghost use Rattle.cif_change.specs.Meaning.{key_meant};

use cif_line::{Day, Stp, Tiploc, Uid};
use std::cmp::Ordering;

/// A key. A change puts a body under its key, or deletes the key. In the order of keys all TIPLOCs
/// come first, then all associations, then all schedules.
#[derive(Clone, Copy, Debug)]
pub enum Key {
    /// The code of a timing point.
    Tiploc(Tiploc),
    /// The key of an association between two trains.
    Assoc(AssocKey),
    /// The key of a schedule of a train.
    Schedule(ScheduleKey),
}

/// The key of an association. Keys are compared by these fields, from the first to the last.
#[derive(Clone, Copy, PartialEq, Eq, PartialOrd, Ord, Debug)]
pub struct AssocKey {
    /// The UID of the base train.
    pub base: Uid,
    /// The UID of the associated train.
    pub associated: Uid,
    /// The first start day of the base train on which the association may apply.
    pub start: Day,
    /// The TIPLOC at which the trains are associated.
    pub location: Tiploc,
    /// The suffix of the base train's call at the association's TIPLOC. It distinguishes several
    /// calls at the same TIPLOC.
    pub suffix: u8,
    /// The STP indicator.
    pub stp: Stp,
}

/// The key of a schedule. Keys are compared by these fields, from the first to the last.
#[derive(Clone, Copy, PartialEq, Eq, PartialOrd, Ord, Debug)]
pub struct ScheduleKey {
    /// The UID of the train.
    pub uid: Uid,
    /// The runs-from date, the first day on which the schedule runs.
    pub runs_from: Day,
    /// The STP indicator.
    pub stp: Stp,
}

impl Key {
    /// A number for the kind of key: 1 for a TIPLOC, 2 for an association, 3 for a schedule.
    fn tag(&self) -> u8
        ensures { result ≡ key_tag (key_meant self.now) }
    {
        match self {
            Key::Tiploc(_) => 1,
            Key::Assoc(_) => 2,
            Key::Schedule(_) => 3,
        }
    }
}

impl PartialEq for Key {
    ghost eq = { on key_meant (eq_by_cmp key_cmp) };

    ghost laws = { partial_equiv_from_equiv (on_equiv key_meant (eq_by_cmp_equiv key_total)) };

    fn eq(&self, other: &Key) -> bool {
        self.cmp(other).is_eq()
    }
}

impl Eq for Key {
    ghost laws = { on_equiv key_meant (eq_by_cmp_equiv key_total) };
}

impl PartialOrd for Key {
    ghost partial_cmp = { as_partial_cmp (on key_meant key_cmp) };

    ghost laws = { partial_order_from_total (on_total key_meant key_total) };

    fn partial_cmp(&self, other: &Key) -> Option<Ordering> {
        Some(self.cmp(other))
    }
}

impl Ord for Key {
    ghost cmp = { on key_meant key_cmp };

    ghost total = { on_total key_meant key_total };

    ghost matches_partial_cmp = { λ a b. refl };

    ghost matches_eq = { λ a b. refl };

    fn cmp(&self, other: &Key) -> Ordering {
        match (self, other) {
            (Key::Tiploc(a), Key::Tiploc(b)) => a.cmp(b),
            (Key::Assoc(a), Key::Assoc(b)) => a.cmp(b),
            (Key::Schedule(a), Key::Schedule(b)) => a.cmp(b),
            _ => self.tag().cmp(&other.tag()),
        }
    }
}
