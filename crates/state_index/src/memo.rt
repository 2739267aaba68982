//! A memo of the indexes at which places were last found in a list.
ghost use Rattle.std.specs.Prelude.{◌≡◌, IfSome, Some, slice_get};

use crate::names::{is_at, packed};
use cif_change::Memory;
use std::alloc::Global;

/// The number of slots of a memo.
const SLOTS: usize = 65_536;

/// The number of slots of a memo for few rows. A small memo is made much faster.
const FEW_SLOTS: usize = 4_096;

/// A memo for fewer rows than this has `FEW_SLOTS` slots.
const MANY: usize = 1_000;

/// The number of consecutive slots in which the index of a place may be.
const NEAR: usize = 8;

/// A memo, which remembers the index at which each place was last found in a list. It is only a
/// shortcut and may forget a place. A hash of a place's bytes determines the first slot of the
/// place. That slot may hold the index of a different place. So the place at a remembered index is
/// always compared with the place that is looked up.
#[derive(Debug, Drop)]
pub(crate) struct Memo {
    slots: Vec<u32>,
}

impl Memo {
    /// A memo without slots, which remembers nothing. Allocates nothing.
    pub(crate) fn new(alloc: Global) -> Memo {
        Memo {
            slots: Vec::new(alloc),
        }
    }

    /// A memo that remembers the indexes of these places. It is made for about `most` rows.
    /// Returns `Memory` if the allocator refuses.
    pub(crate) fn of(alloc: Global, places: &[[u8; 7]], most: usize) -> Result<Memo, Memory> {
        let slots = if most < MANY { FEW_SLOTS } else { SLOTS };
        let mut memo = Memo {
            slots: vec![in alloc; 0u32; slots]?,
        };
        let mut at: u32 = 0;
        let mut rest = places;
        while let Some((place, behind)) = rest.split_first() {
            memo.set(place, at);
            at = at.saturating_add(1);
            rest = behind;
        }
        Ok(memo)
    }

    /// The index of a place in a list of places, if the memo remembers it.
    pub(crate) fn find(&self, places: &[[u8; 7]], place: &[u8; 7]) -> Option<u32>
        ensures { IfSome result (λ index. slice_get places.now index ≡ Some place.now) }
    {
        let first = self.first_slot(place);
        for step in 0..NEAR {
            if let Some(index) = self.slots.get(first.wrapping_add(step)) {
                if is_at(places, *index, place) {
                    return Some(*index);
                }
            }
        }
        None
    }

    /// Remembers the index of a place. The index is written to the first free slot of the place. If
    /// no slot of the place is free, the index replaces the index in the first slot.
    pub(crate) fn set(&mut self, place: &[u8; 7], index: u32) {
        let first = self.first_slot(place);
        for step in 0..NEAR {
            if let Some(kept) = self.slots.get_mut(first.wrapping_add(step)) {
                if *kept == 0 {
                    *kept = index;
                    return;
                }
            }
        }
        if let Some(kept) = self.slots.get_mut(first) {
            *kept = index;
        }
    }

    /// The first slot of a place: the lowest bits of its hash, because the number of slots is a
    /// power of two.
    fn first_slot(&self, place: &[u8; 7]) -> usize {
        hash_of(place) & self.slots.len().wrapping_sub(1)
    }
}

/// A hash of sixteen bits. The place's bytes are packed into a number and multiplied by a constant,
/// and the highest sixteen bits are taken.
fn hash_of(place: &[u8; 7]) -> usize {
    (packed(place).wrapping_mul(0x9E37_79B9_7F4A_7C15) >> 48) as usize
}
