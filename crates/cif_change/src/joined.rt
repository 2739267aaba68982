//! The joined bytes of several lines, which are compared without copying them into one buffer.
ghost use Rattle.std.specs.Prelude.{◌≡◌, ◌++◌};
ghost use Rattle.std.specs.List.{concat};
ghost use Rattle.std.specs.Iterator.{YieldsFirst, item_count};
ghost use Rattle.docker_model.specs.state.Order.{bytes_cmp};
ghost use Rattle.cif_change.specs.Joined.{joined_bytes};

use cif_line::Line;
use std::cmp::Ordering;

/// Bytes still to be compared: first the rest of the current line, and then all bytes of the lines
/// after it.
#[derive(Drop)]
pub(crate) struct Joined<'a> {
    front: &'a [u8],
    lines: &'a [Line],
}

impl<'a> Joined<'a> {
    pub(crate) fn new(front: &'a [u8], lines: &'a [Line]) -> Joined<'a>
        ensures { joined_bytes result ≡ front.now ++ concat lines.now }
    {
        Joined { front, lines }
    }

    /// Compares these bytes with the bytes of `other`, byte by byte.
    pub(crate) fn compare(self, other: Joined<'_>) -> Ordering
        ensures { result ≡ bytes_cmp (joined_bytes self.entry) (joined_bytes other.entry) }
    {
        self.cmp(other)
    }
}

impl<'a> Iterator for Joined<'a> {
    type Item = u8;

    ghost next_gives = { YieldsFirst joined_bytes };

    ghost remaining = { item_count joined_bytes };

    fn next(&mut self) -> Option<u8> {
        if self.front.is_empty() {
            let (line, rest) = self.lines.split_first()?;
            self.lines = rest;
            self.front = line.bytes();
        }
        let (byte, rest) = self.front.split_first()?;
        self.front = rest;
        Some(*byte)
    }
}
