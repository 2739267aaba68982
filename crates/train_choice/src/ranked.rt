//! The order in which the schedules of a UID, or the associations of a group, are chosen.
ghost use Rattle.std.specs.Prelude.{◌≡◌, ℕ};
ghost use Rattle.std.specs.Ordering.{is_lt};
ghost use Rattle.std.specs.Option.{option_copied};
ghost use Rattle.train_choice.specs.Ranked.{is_better, rank_cmp, rank_meant};

use cif_line::{Day, Stp};

/// A schedule or an association, which is chosen by its STP indicator and its first date.
pub(crate) trait Ranked {
    // the letter of the STP indicator, and the first date as a day number
    ghost rank: { Self → ℕ × ℕ };

    /// The STP indicator and the first date.
    fn rank(&self) -> (Stp, Day)
        ensures { rank_meant result ≡ rank self.now };
}

/// Whether `more` is better than `best`, or there is no `best` yet.
pub(crate) fn is_better<R: Ranked>(more: &R, best: Option<&R>) -> bool
    ensures { result ≡ is_better (rank_cmp R.rank) more.now (option_copied best.entry) }
{
    match best {
        Some(best) => comes_before(more.rank(), best.rank()),
        None => true,
    }
}

/// Whether `one` comes before `other` in the order of choice. It does if its STP indicator is
/// earlier in the alphabet, or if both have the same indicator and `one` has the later first date.
fn comes_before(one: (Stp, Day), other: (Stp, Day)) -> bool
    ensures { result ≡ is_lt (rank_cmp rank_meant one other) }
{
    let (stp, first) = one;
    let (other_stp, other_first) = other;
    stp.letter()
        .cmp(&other_stp.letter())
        .then(other_first.number().cmp(&first.number()))
        .is_lt()
}
