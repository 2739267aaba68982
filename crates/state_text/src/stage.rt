//! The stages of reading a state's text.
ghost use Rattle.std.specs.Prelude.{◌≡◌, ◌≤◌, ℕ, List};
ghost use Rattle.docker_model.specs.state.State as states;
ghost use Rattle.docker_model.specs.state.StatePart.{width, key_width, body_width};
ghost use Rattle.cif_change.specs.Meaning.{key_meant};
ghost use Rattle.state_text.specs.Stage.{tag_meant, stage_meant, begins_item};

use crate::format::{
    ASSOC_KEY, COUNT, HORIZON, ITEM, LINE, LINE_COUNT, MARK, OP, SCHEDULE_KEY, STAMP, TAG,
    TIPLOC_BODY, TIPLOC_KEY,
};
use cif_file::{Key, ScheduleKey};
use docker_join::Stamp;

/// The kind of an entry's key. In the text, the entry's tag says which kind it is.
#[derive(Clone, Copy, Debug)]
pub enum Tag {
    /// A TIPLOC.
    Tiploc,
    /// An association.
    Assoc,
    /// A schedule.
    Schedule,
}

impl Tag {
    /// The width of a key of this kind.
    pub(crate) fn width(self) -> usize
        ensures value { result ≡ key_width (tag_meant self) }
        ensures bound { result ≤ LINE }
    {
        match self {
            Tag::Tiploc => TIPLOC_KEY,
            Tag::Assoc => ASSOC_KEY,
            Tag::Schedule => SCHEDULE_KEY,
        }
    }
}

/// The part that comes next in the text, with the parts before it in the same entry that are still
/// needed. The first number is the number of all ledger items, or of all entries, in the text. The
/// last number of `Line` is the number of the schedule's lines.
#[derive(Clone, Copy, Debug)]
pub enum Stage {
    /// The mark of the format.
    Mark,
    /// The horizon.
    Horizon,
    /// The number of ledger items.
    LedgerCount,
    /// A ledger item.
    Item(u64),
    /// The number of entries.
    EntryCount,
    /// The tag of an entry.
    Tag(u64),
    /// The key of an entry.
    Key(u64, Tag),
    /// The stamp of an entry.
    Stamp(u64, Key),
    /// The op of an entry.
    Op(u64, Key, Stamp),
    /// The body of a put; for a schedule, the number of its lines.
    Body(u64, Key, Stamp),
    /// A line of a schedule.
    Line(u64, ScheduleKey, Stamp, u32),
    /// The text has ended.
    End,
}

impl Stage {
    /// The width of the next part in bytes. Returns 0 if the text has ended.
    pub fn width(&self) -> usize
        ensures value { (state : states.State) (lines : List (List ℕ)) →
            result ≡ width (stage_meant self.now state lines) }
        ensures bound { result ≤ LINE }
    {
        match self {
            Stage::Mark => MARK,
            Stage::Horizon => HORIZON,
            Stage::LedgerCount | Stage::EntryCount => COUNT,
            Stage::Item(_) => ITEM,
            Stage::Tag(_) => TAG,
            Stage::Op(_, _, _) => OP,
            Stage::Key(_, tag) => tag.width(),
            Stage::Stamp(_, _) => STAMP,
            Stage::Body(_, key, _) => body_width(key),
            Stage::Line(_, _, _, _) => LINE,
            Stage::End => 0,
        }
    }

    /// Whether the next part begins an item of the text. The result is false for the parts of an
    /// entry after its tag. At the end of the text the result is true.
    pub fn begins_item(&self) -> bool
        ensures { (state : states.State) (lines : List (List ℕ)) →
            result ≡ begins_item (stage_meant self.now state lines) }
    {
        match self {
            Stage::Key(_, _) | Stage::Stamp(_, _) | Stage::Op(_, _, _) => false,
            Stage::Body(_, _, _) | Stage::Line(_, _, _, _) => false,
            _ => true,
        }
    }
}

/// The width of the part after a put's op. This part is the body or, for a schedule, the number of
/// its lines.
fn body_width(key: &Key) -> usize
    ensures value { result ≡ body_width (key_meant key.now) }
    ensures bound { result ≤ LINE }
{
    match key {
        Key::Tiploc(_) => TIPLOC_BODY,
        Key::Assoc(_) => LINE,
        Key::Schedule(_) => LINE_COUNT,
    }
}
