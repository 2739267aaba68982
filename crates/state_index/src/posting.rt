//! Postings, the entries of an index.
ghost use Rattle.std.specs.Prelude.{◌≡◌, ◌+◌, ◌*◌, ◌^◌, ◌<◌};
ghost use Rattle.state_index.specs.PostingOrder.{posting_cmp};

use std::cmp::Ordering;

/// An entry of an index: a place, with the row of a schedule that calls there or of an association
/// there. Postings are ordered by place, and then by row.
#[derive(Clone, Copy, PartialEq, Eq, PartialOrd, Ord, Debug)]
pub struct Posting {
    /// The index of the place in the index's list of places, from 0.
    pub place: u32,
    /// The index of the row in the table, from 0.
    pub at: u32,
}

impl Posting {
    /// The order of postings. Both fields are compared at once, as one number, which makes sorting
    /// a third faster.
    pub(crate) fn compare(&self, other: &Posting) -> Ordering
        ensures { result ≡ posting_cmp self.now other.now }
    {
        self.number().cmp(&other.number())
    }

    /// The place in the upper half of a number, and the row in its lower half.
    fn number(&self) -> u64
        ensures number { result ≡ self.now.place * 2 ^ 32 + self.now.at }
        ensures row { self.now.at < 2 ^ 32 }
    {
        u64::from(self.place) * 0x1_0000_0000 + u64::from(self.at)
    }
}
