//! Causes: the reasons why bytes aren't the text of a state.
ghost use Rattle.std.specs.Prelude.{◌≡◌, ◌≤◌, Some, length};
ghost use Rattle.state_text.specs.CauseText.{cause_text};
ghost use Rattle.state_text.specs.declared.cause.StateCause.TheVariants.{Memory as wanting};

use cif_line::Memory;
use std::alloc::AllocError;
use std::error::Error;
use std::fmt;

/// The cause of a fault.
#[derive(Clone, Copy, PartialEq, Eq, Debug)]
pub enum StateCause {
    /// The text doesn't begin with the mark of its format.
    Mark,
    /// This ledger item can't come from the header of any file.
    Item,
    /// The ledger item isn't above the previous item, or the entry's key isn't above the previous
    /// key.
    Order,
    /// The ledger item is a full extract above the first item. With this extract, the first item
    /// would be below the floor.
    Floor,
    /// The tag isn't 1, 2 or 3.
    Tag,
    /// The stamp's file isn't in the ledger, or no change can have the stamp's record number.
    Stamp,
    /// The key, the op or the body isn't well formed; or the body doesn't fit its key, or ends
    /// before the horizon.
    Body,
    /// The text ends before its state is complete.
    Short,
    /// More bytes follow the last byte of the state.
    Tail,
    /// The state's text is longer than the limit allows.
    Long,
    /// Out of memory: the allocator refused a request.
    Memory,
    /// The horizon isn't a day number: it is above 36524.
    Horizon,
}

impl StateCause {
    /// The cause's name, as it is printed in the text of a fault.
    pub fn name(&self) -> &'static str
        ensures name { result.now ≡ cause_text self.now }
        ensures len { length result.now ≤ 7 }
    {
        match self {
            StateCause::Mark => "Mark",
            StateCause::Item => "Item",
            StateCause::Order => "Order",
            StateCause::Floor => "Floor",
            StateCause::Tag => "Tag",
            StateCause::Stamp => "Stamp",
            StateCause::Body => "Body",
            StateCause::Short => "Short",
            StateCause::Tail => "Tail",
            StateCause::Long => "Long",
            StateCause::Memory => "Memory",
            StateCause::Horizon => "Horizon",
        }
    }
}

impl fmt::Display for StateCause {
    ghost output = { λ cause. Some (cause_text cause) };

    fn fmt<W: fmt::Write>(&self, f: &mut fmt::Formatter<W>) -> fmt::Result {
        f.write_str(self.name())
    }
}

impl Error for StateCause {}

impl From<AllocError> for StateCause {
    ghost from_gives = { λ _ cause. cause ≡ wanting };

    fn from(_refused: AllocError) -> StateCause {
        StateCause::Memory
    }
}

impl From<Memory> for StateCause {
    ghost from_gives = { λ _ cause. cause ≡ wanting };

    fn from(_wanting: Memory) -> StateCause {
        StateCause::Memory
    }
}
