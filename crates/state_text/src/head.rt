//! Reads the head of a put in one step: the parts before its body or, for a schedule, the parts
//! before its lines.
ghost use Rattle.std.specs.Prelude.{◌≡◌, ◌+◌, ◌∷◌, length, MatchOption};
ghost use Rattle.docker_model.specs.file.Change as changes;
ghost use Rattle.docker_model.specs.state.Stamp as stamps;
ghost use Rattle.docker_model.specs.state.State.{IsValid};
ghost use Rattle.docker_model.specs.state.StatePart.{before_body, key_width};
ghost use Rattle.cif_change.specs.Meaning.{key_meant};
ghost use Rattle.docker_join.specs.Meaning.{stamp_meant};
ghost use Rattle.state_text.specs.Stage.{tag_meant};
ghost use Rattle.state_text.specs.Head.{AreParts, IsBeforeBody, IsPutHead, BeginsWithParts, BeginsWithNoParts};

use crate::format::{
    ASSOC_TAG, LINE_COUNT, OP, PUT, SCHEDULE_KEY, SCHEDULE_TAG, STAMP, TAG, TIPLOC_TAG,
};
use crate::keeper::PartKeeper;
use crate::key::judged_key;
use crate::parts_so_far::PartsSoFar;
use crate::stage::{Stage, Tag};
use crate::stamp::judged_stamp;
use crate::steps::line_count;
use cif_file::Key;
use docker_join::Stamp;

/// The width of a schedule's key, stamp and op together. These are the parts of its put between the
/// tag and the number of lines.
const SCHEDULE_PUT: usize = SCHEDULE_KEY + STAMP + OP;

/// Reads the key and the stamp of a put from its bytes between the tag and the body. Returns `None`
/// if a part is bad, or if the op isn't a put.
#[inline(always)]
fn put_of<K: PartKeeper>(tag: Tag, parts: &PartsSoFar<K>, bytes: &[u8]) -> Option<(Key, Stamp)>
    requires valid { IsValid parts.now }
    requires wide { length bytes.now ≡ key_width (tag_meant tag) + (STAMP + OP) }
    ensures { MatchOption result
        ((key : changes.Key) (stamp : stamps.Stamp) →
        ¬ AreParts parts.now (tag_meant tag ∷ bytes.now) (before_body key stamp))
        (λ put. AreParts parts.now (tag_meant tag ∷ bytes.now)
        (before_body (key_meant put.0) (stamp_meant put.1))) }
{
    let (key, rest) = bytes.split_at(tag.width());
    let (stamp, op) = rest.split_at(STAMP);
    if op[0] != PUT {
        return None;
    }
    let Ok(key) = judged_key(tag, parts, key) else {
        return None;
    };
    let Some(stamp) = judged_stamp(parts.ledger(), stamp) else {
        return None;
    };
    Some((key, stamp))
}

/// Reads the head of a TIPLOC's or an association's put from the bytes after its tag. The result is
/// explained at `put_head`.
#[inline(always)]
fn body_head<K: PartKeeper>(
    tag: Tag,
    count: u64,
    parts: &PartsSoFar<K>,
    bytes: &[u8],
) -> Option<(Stage, usize)>
    requires { IsValid parts.now }
    ensures { MatchOption result
        (BeginsWithNoParts IsBeforeBody parts.now (tag_meant tag ∷ bytes.now))
        (BeginsWithParts IsBeforeBody count parts.now (tag_meant tag ∷ bytes.now)) }
{
    let len = tag.width() + (STAMP + OP);
    if bytes.len() < len {
        return None;
    }
    let (put, _body) = bytes.split_at(len);
    match put_of(tag, parts, put) {
        Some((key, stamp)) => Some((Stage::Body(count, key, stamp), TAG + len)),
        None => None,
    }
}

/// Reads the head of a schedule's put, up to its lines, from the bytes after its tag. The result is
/// explained at `put_head`.
#[inline(always)]
fn schedule_head<K: PartKeeper>(
    count: u64,
    parts: &PartsSoFar<K>,
    bytes: &[u8],
) -> Option<(Stage, usize)>
    requires { IsValid parts.now }
    ensures { MatchOption result (BeginsWithNoParts IsPutHead parts.now (3 ∷ bytes.now))
        (BeginsWithParts IsPutHead count parts.now (3 ∷ bytes.now)) }
{
    if bytes.len() < SCHEDULE_PUT + LINE_COUNT {
        return None;
    }
    let (put, rest) = bytes.split_at(SCHEDULE_PUT);
    let (number, _lines) = rest.split_at(LINE_COUNT);
    let lines = line_count(number)?;
    let Some((key, stamp)) = put_of(Tag::Schedule, parts, put) else {
        return None;
    };
    match key {
        Key::Schedule(key) => Some((
            Stage::Line(count, key, stamp, lines),
            TAG + SCHEDULE_PUT + LINE_COUNT,
        )),
        _ => None,
    }
}

/// Reads the head of a put at the start of the bytes: its tag, key, stamp and op, and for a
/// schedule also the number of its lines. Returns the stage after the head and the head's length in
/// bytes. `count` is the number of all entries in the text. Returns `None` if and only if the bytes
/// end before the head does, a part of the head is bad, or the op isn't a put.
pub fn put_head<K: PartKeeper>(
    count: u64,
    parts: &PartsSoFar<K>,
    bytes: &[u8],
) -> Option<(Stage, usize)>
    requires { IsValid parts.now }
    ensures { MatchOption result (BeginsWithNoParts IsPutHead parts.now bytes.now)
        (BeginsWithParts IsPutHead count parts.now bytes.now) }
{
    let (tag, rest) = bytes.split_first()?;
    match *tag {
        SCHEDULE_TAG => schedule_head(count, parts, rest),
        ASSOC_TAG => body_head(Tag::Assoc, count, parts, rest),
        TIPLOC_TAG => body_head(Tag::Tiploc, count, parts, rest),
        _ => None,
    }
}
