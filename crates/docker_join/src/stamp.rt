//! Stamps: which record of which file an entry comes from.
ghost use Rattle.std.specs.Prelude.{◌↔◌, IfOk, IsOk, IsTrue, ⊤};
ghost use Rattle.std.specs.Ordering.{on, as_partial_cmp, eq_by_cmp, ord_max};
ghost use Rattle.std.specs.Cmp.{partial_equiv_from_equiv, on_equiv, on_total, eq_by_cmp_equiv, partial_order_from_total};
ghost use Rattle.std.proofs.Common.{refl};
ghost use Rattle.docker_model.specs.state.Stamp.{file_stamp_cmp, stamp_cmp, IsKept};
ghost use Rattle.cif_laws.proofs.orders.Orders.{file_stamp_total, stamp_total};
ghost use Rattle.docker_join.specs.Meaning.{file_stamp_meant, floor_meant, stamp_meant};
ghost use Rattle.docker_model.specs.state.Order.{IsGreater};
ghost use Rattle.cif_laws.proofs.orders.Greater.{greater_closed, greater_one, greater_commutes, greater_associates, greater_itself, greater_max};
ghost use Rattle.docker_join.specs.Exact.{exact_file_stamp, exact_stamp};

use crate::merge::{Merge, Pick};
use cif_change::Day;
use std::alloc::Global;
use std::cmp::Ordering;

/// The stamp of a file: when it was extracted, and its reference. File stamps are ordered by day,
/// then by minute, then by reference.
#[derive(Clone, Copy, Debug)]
pub struct FileStamp {
    /// The date of extract in the file's header.
    pub day: Day,
    /// The time of extract, as a minute of the day from 0 to 1439.
    pub minute: u16,
    /// The current file reference in the file's header.
    pub reference: [u8; 7],
}

impl FileStamp {
    /// Whether a file with this stamp is kept, with its entries: its stamp isn't below the floor.
    /// Returns true if there is no floor.
    pub fn is_kept(&self, floor: &Option<FileStamp>) -> bool
        ensures { IsTrue result ↔ IsKept (floor_meant floor.now) (file_stamp_meant self.now) }
    {
        match floor {
            None => true,
            Some(least) => *least <= *self,
        }
    }
}

impl PartialEq for FileStamp {
    ghost eq = { on file_stamp_meant (eq_by_cmp file_stamp_cmp) };

    ghost laws = { partial_equiv_from_equiv
        (on_equiv file_stamp_meant (eq_by_cmp_equiv file_stamp_total)) };

    fn eq(&self, other: &FileStamp) -> bool {
        self.cmp(other).is_eq()
    }
}

impl Eq for FileStamp {
    ghost laws = { on_equiv file_stamp_meant (eq_by_cmp_equiv file_stamp_total) };
}

impl PartialOrd for FileStamp {
    ghost partial_cmp = { as_partial_cmp (on file_stamp_meant file_stamp_cmp) };

    ghost laws = { partial_order_from_total (on_total file_stamp_meant file_stamp_total) };

    fn partial_cmp(&self, other: &FileStamp) -> Option<Ordering> {
        Some(self.cmp(other))
    }
}

impl Ord for FileStamp {
    ghost cmp = { on file_stamp_meant file_stamp_cmp };

    ghost total = { on_total file_stamp_meant file_stamp_total };

    ghost matches_partial_cmp = { λ a b. refl };

    ghost matches_eq = { λ a b. refl };

    fn cmp(&self, other: &FileStamp) -> Ordering {
        self.day
            .cmp(&other.day)
            .then(self.minute.cmp(&other.minute))
            .then_with(|| self.reference.cmp(&other.reference))
    }
}

impl Merge for FileStamp {
    ghost is_valid = { λ _. ⊤ };

    ghost is_join = { IsGreater (on file_stamp_meant file_stamp_cmp) };

    ghost closed = { greater_closed (λ _. ⊤) (on_total file_stamp_meant file_stamp_total) };

    ghost one = { greater_one (λ _. ⊤)
        (on_total file_stamp_meant file_stamp_total) exact_file_stamp };

    ghost commutative = { greater_commutes (λ _. ⊤) (on_total file_stamp_meant file_stamp_total) };

    ghost associative = { greater_associates (λ _. ⊤)
        (on_total file_stamp_meant file_stamp_total) exact_file_stamp };

    ghost idempotent = { greater_itself (λ _. ⊤) (on_total file_stamp_meant file_stamp_total) };

    /// The greater of the two file stamps: the stamp of the newer file. No memory is allocated.
    fn join(self, _alloc: Global, other: FileStamp) -> Result<FileStamp, (FileStamp, FileStamp)>
        ensures always { IsOk result }
        ensures ok { IfOk result (IsGreater (on file_stamp_meant file_stamp_cmp) self other) }
    {
        Ok(self.pick(other))
    }
}

impl Pick for FileStamp {
    ghost picked = { ord_max (on file_stamp_meant file_stamp_cmp) };

    ghost joins = { greater_max (λ _. ⊤) (on_total file_stamp_meant file_stamp_total) };

    /// The greater of the two file stamps.
    fn pick(self, other: FileStamp) -> FileStamp {
        self.max(other)
    }
}

/// The stamp of a record: the stamp of its file, and the record's number. Stamps are ordered by
/// file stamp, and then by number.
#[derive(Clone, Copy, Debug)]
pub struct Stamp {
    /// The stamp of the file.
    pub file: FileStamp,
    /// The number of the record in its file, from 1.
    pub number: u32,
}

impl PartialEq for Stamp {
    ghost eq = { on stamp_meant (eq_by_cmp stamp_cmp) };

    ghost laws = { partial_equiv_from_equiv (on_equiv stamp_meant (eq_by_cmp_equiv stamp_total)) };

    fn eq(&self, other: &Stamp) -> bool {
        self.cmp(other).is_eq()
    }
}

impl Eq for Stamp {
    ghost laws = { on_equiv stamp_meant (eq_by_cmp_equiv stamp_total) };
}

impl PartialOrd for Stamp {
    ghost partial_cmp = { as_partial_cmp (on stamp_meant stamp_cmp) };

    ghost laws = { partial_order_from_total (on_total stamp_meant stamp_total) };

    fn partial_cmp(&self, other: &Stamp) -> Option<Ordering> {
        Some(self.cmp(other))
    }
}

impl Ord for Stamp {
    ghost cmp = { on stamp_meant stamp_cmp };

    ghost total = { on_total stamp_meant stamp_total };

    ghost matches_partial_cmp = { λ a b. refl };

    ghost matches_eq = { λ a b. refl };

    fn cmp(&self, other: &Stamp) -> Ordering {
        self.file
            .cmp(&other.file)
            .then(self.number.cmp(&other.number))
    }
}

impl Merge for Stamp {
    ghost is_valid = { λ _. ⊤ };

    ghost is_join = { IsGreater (on stamp_meant stamp_cmp) };

    ghost closed = { greater_closed (λ _. ⊤) (on_total stamp_meant stamp_total) };

    ghost one = { greater_one (λ _. ⊤) (on_total stamp_meant stamp_total) exact_stamp };

    ghost commutative = { greater_commutes (λ _. ⊤) (on_total stamp_meant stamp_total) };

    ghost associative = { greater_associates (λ _. ⊤)
        (on_total stamp_meant stamp_total) exact_stamp };

    ghost idempotent = { greater_itself (λ _. ⊤) (on_total stamp_meant stamp_total) };

    /// The greater of the two stamps, which is the newer stamp. No memory is allocated.
    fn join(self, _alloc: Global, other: Stamp) -> Result<Stamp, (Stamp, Stamp)>
        ensures always { IsOk result }
        ensures ok { IfOk result (IsGreater (on stamp_meant stamp_cmp) self other) }
    {
        Ok(self.pick(other))
    }
}

impl Pick for Stamp {
    ghost picked = { ord_max (on stamp_meant stamp_cmp) };

    ghost joins = { greater_max (λ _. ⊤) (on_total stamp_meant stamp_total) };

    /// The greater of the two stamps.
    fn pick(self, other: Stamp) -> Stamp {
        self.max(other)
    }
}
