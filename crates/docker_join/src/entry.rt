//! Entries: what the newest known change did to a key, and the stamp of that change.
ghost use Rattle.std.specs.Prelude.{◌≡◌, false, IfOk, IsOk, if◌then◌else◌};
ghost use Rattle.std.specs.Ordering.{on, as_partial_cmp, eq_by_cmp, ord_max};
ghost use Rattle.std.specs.Cmp.{partial_equiv_from_equiv, on_equiv, on_total, eq_by_cmp_equiv, partial_order_from_total};
ghost use Rattle.std.proofs.Common.{refl};
ghost use Rattle.docker_model.specs.state.Op.{lapsed, op_cmp, entry_cmp};
ghost use Rattle.docker_model.specs.state.Lapse.{lapse, lapse_entry};
ghost use Rattle.cif_laws.proofs.orders.Orders.{op_total, entry_total};
ghost use Rattle.docker_join.specs.Meaning.{op_meant, entry_meant};
ghost use Rattle.docker_model.specs.state.Order.{IsGreater};
ghost use Rattle.cif_laws.proofs.orders.Greater.{greater_closed, greater_one, greater_commutes, greater_associates, greater_itself, greater_max};
ghost use Rattle.docker_join.specs.Records.{HasRecords};
ghost use Rattle.docker_join.specs.Exact.{exact_entry};

use crate::merge::{Merge, Pick};
use crate::stamp::Stamp;
use cif_change::Body;
use std::alloc::Global;
use std::cmp::Ordering;

/// What a state keeps of the newest change to a key. In the order of ops a deletion comes first,
/// then a lapsed op, then all puts. Puts are ordered by their bodies.
#[derive(Debug, Drop)]
pub enum Op {
    /// The key is deleted.
    Deleted,
    /// The key was put with a body that ended before a horizon. The body isn't kept any more.
    Lapsed,
    /// The key is put with this body.
    Put(Body),
}

impl Op {
    /// Applies a horizon, given as a day number. A put whose body ended before the horizon lapses
    /// and loses its body. Any other op is unchanged. The body of a TIPLOC has no end, so it never
    /// lapses.
    pub fn lapse(self, horizon: u16) -> Op
        ensures { op_meant result ≡ lapse horizon (op_meant self) }
    {
        if self.ends_before(horizon) {
            Op::Lapsed
        } else {
            self
        }
    }

    /// Whether this is a put whose body ended before the horizon.
    fn ends_before(&self, horizon: u16) -> bool
        ensures { lapse horizon (op_meant self.now) ≡
            (if result then lapsed else op_meant self.now) }
    {
        match self {
            Op::Deleted => false,
            Op::Lapsed => false,
            Op::Put(body) => body.end_number() < horizon,
        }
    }
}

impl PartialEq for Op {
    ghost eq = { on op_meant (eq_by_cmp op_cmp) };

    ghost laws = { partial_equiv_from_equiv (on_equiv op_meant (eq_by_cmp_equiv op_total)) };

    fn eq(&self, other: &Op) -> bool {
        self.cmp(other).is_eq()
    }
}

impl Eq for Op {
    ghost laws = { on_equiv op_meant (eq_by_cmp_equiv op_total) };
}

impl PartialOrd for Op {
    ghost partial_cmp = { as_partial_cmp (on op_meant op_cmp) };

    ghost laws = { partial_order_from_total (on_total op_meant op_total) };

    fn partial_cmp(&self, other: &Op) -> Option<Ordering> {
        Some(self.cmp(other))
    }
}

impl Ord for Op {
    ghost cmp = { on op_meant op_cmp };

    ghost total = { on_total op_meant op_total };

    ghost matches_partial_cmp = { λ a b. refl };

    ghost matches_eq = { λ a b. refl };

    fn cmp(&self, other: &Op) -> Ordering {
        match (self, other) {
            (Op::Deleted, Op::Deleted) => Ordering::Equal,
            (Op::Deleted, Op::Lapsed) => Ordering::Less,
            (Op::Deleted, Op::Put(_)) => Ordering::Less,
            (Op::Lapsed, Op::Deleted) => Ordering::Greater,
            (Op::Lapsed, Op::Lapsed) => Ordering::Equal,
            (Op::Lapsed, Op::Put(_)) => Ordering::Less,
            (Op::Put(_), Op::Deleted) => Ordering::Greater,
            (Op::Put(_), Op::Lapsed) => Ordering::Greater,
            (Op::Put(a), Op::Put(b)) => a.cmp(b),
        }
    }
}

/// What a state keeps of the newest change to a key: its op and its stamp. Entries are ordered by
/// stamp, and then by op. Of two entries for the same key, the greater counts.
#[derive(Debug, Drop)]
pub struct Entry {
    /// The stamp of the change that the entry comes from.
    pub stamp: Stamp,
    /// What the change did to the key.
    pub op: Op,
}

impl Entry {
    /// Lets the op lapse if its body ended before the horizon. The stamp is unchanged, so that no
    /// entry with a lower stamp counts instead of this entry. Returns whether the op has lapsed in
    /// this call.
    pub fn lapse(&mut self, horizon: u16) -> bool
        ensures lapsed { entry_meant self.new ≡ lapse_entry horizon (entry_meant self.old) }
        ensures same { result ≡ false → self.new ≡ self.old }
    {
        let ends = self.op.ends_before(horizon);
        if ends {
            self.op = Op::Lapsed;
        }
        ends
    }
}

impl PartialEq for Entry {
    ghost eq = { on entry_meant (eq_by_cmp entry_cmp) };

    ghost laws = { partial_equiv_from_equiv (on_equiv entry_meant (eq_by_cmp_equiv entry_total)) };

    fn eq(&self, other: &Entry) -> bool {
        self.cmp(other).is_eq()
    }
}

impl Eq for Entry {
    ghost laws = { on_equiv entry_meant (eq_by_cmp_equiv entry_total) };
}

impl PartialOrd for Entry {
    ghost partial_cmp = { as_partial_cmp (on entry_meant entry_cmp) };

    ghost laws = { partial_order_from_total (on_total entry_meant entry_total) };

    fn partial_cmp(&self, other: &Entry) -> Option<Ordering> {
        Some(self.cmp(other))
    }
}

impl Ord for Entry {
    ghost cmp = { on entry_meant entry_cmp };

    ghost total = { on_total entry_meant entry_total };

    ghost matches_partial_cmp = { λ a b. refl };

    ghost matches_eq = { λ a b. refl };

    fn cmp(&self, other: &Entry) -> Ordering {
        self.stamp
            .cmp(&other.stamp)
            .then_with(|| self.op.cmp(&other.op))
    }
}

impl Merge for Entry {
    // Says that the lines of the entry's body are records.
    ghost is_valid = { λ entry. HasRecords (op_meant entry.op) };

    ghost is_join = { IsGreater (on entry_meant entry_cmp) };

    ghost closed = { greater_closed (λ entry. HasRecords (op_meant entry.op))
        (on_total entry_meant entry_total) };

    ghost one = { greater_one (λ entry. HasRecords (op_meant entry.op))
        (on_total entry_meant entry_total) exact_entry };

    ghost commutative = { greater_commutes (λ entry. HasRecords (op_meant entry.op))
        (on_total entry_meant entry_total) };

    ghost associative = { greater_associates (λ entry. HasRecords (op_meant entry.op))
        (on_total entry_meant entry_total) exact_entry };

    ghost idempotent = { greater_itself (λ entry. HasRecords (op_meant entry.op))
        (on_total entry_meant entry_total) };

    /// The greater of the two entries. No memory is allocated.
    fn join(self, _alloc: Global, other: Entry) -> Result<Entry, (Entry, Entry)>
        ensures always { IsOk result }
        ensures ok { IfOk result (IsGreater (on entry_meant entry_cmp) self other) }
    {
        Ok(self.pick(other))
    }
}

impl Pick for Entry {
    ghost picked = { ord_max (on entry_meant entry_cmp) };

    ghost joins = { greater_max (λ entry. HasRecords (op_meant entry.op))
        (on_total entry_meant entry_total) };

    /// The greater of the two entries.
    fn pick(self, other: Entry) -> Entry {
        self.max(other)
    }
}
