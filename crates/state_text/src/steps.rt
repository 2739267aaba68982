//! Reads the parts of a state's text one by one: judges each part and returns the stage after it.
ghost use Rattle.std.specs.Prelude.{◌≡◌, ◌+◌, ◌<◌, ◌≤◌, ◌↔◌, ℕ, List, [], length, IsTrue, IfOk, IfErr, MatchOption};
ghost use Rattle.std.specs.Int.{w32, from_be_bytes};
ghost use Rattle.docker_model.specs.file.Change.{tiploc_key, association_key, schedule_key};
ghost use Rattle.docker_model.specs.state.State as states;
ghost use Rattle.docker_model.specs.state.State.{IsOpOf};
ghost use Rattle.docker_model.specs.state.StateText.{mark};
ghost use Rattle.docker_model.specs.state.StateText as formats;
ghost use Rattle.docker_model.specs.state.StatePart.{before_mark, before_horizon, before_item, in_entry, before_tag, before_key, before_stamp, before_op, before_body, before_line, AreGood, IsStampHere, IsLineCount, width, key_width};
ghost use Rattle.state_laws.specs.TextStage.{after_items, after_entries, with_entry};
ghost use Rattle.cif_change.specs.Meaning.{key_meant, association_key_meant, schedule_key_meant};
ghost use Rattle.docker_join.specs.Meaning.{stamp_meant, op_meant};
ghost use Rattle.state_text.specs.FormatMeaning.{format_meant};
ghost use Rattle.state_text.specs.Judged.{Judges};
ghost use Rattle.state_text.specs.Stage.{tag_meant, stage_meant, IsReady, IsLast, IsFresh};

use crate::body::{assoc_body, tiploc_body};
use crate::cause::StateCause;
use crate::fields::{number_16, number_32, number_64};
use crate::format::{
    ASSOC_TAG, DELETED, Format, HORIZON, ITEM, LAPSED, LINE_COUNT, OP, PUT, SCHEDULE_TAG, STAMP,
    TAG, TIPLOC_BODY, TIPLOC_TAG,
};
use crate::item::judged_item;
use crate::keeper::PartKeeper;
use crate::key::judged_key;
use crate::parts_so_far::PartsSoFar;
use crate::schedule::{Gathered, judged_line};
use crate::stage::{Stage, Tag};
use crate::stamp::judged_stamp;
use cif_file::{AssocKey, Body, Key, ScheduleKey};
use cif_line::{Day, Tiploc};
use docker_join::{Entry, Op, Stamp};
use std::alloc::Global;

/// The greatest number of lines that a schedule may have.
const MOST_LINES: u32 = 4_294_967_294;

/// Whether the bytes are the mark of the format.
fn is_mark(format: Format, bytes: &[u8]) -> bool
    ensures { IsTrue result ↔ (bytes.now ≡ mark (format_meant format)) }
{
    matches!(
        (format, bytes),
        (Format::Dks1, b"DKS1") | (Format::Dks2, b"DKS2")
    )
}

/// Reads the mark. Returns `Mark` if the bytes aren't the mark of the format.
fn after_mark(format: Format, bytes: &[u8]) -> Result<Stage, StateCause>
    ensures { (state : states.State) (lines : List (List ℕ)) → IsFresh Stage.Mark state →
        Judges (format_meant format) before_mark bytes.now state lines result }
{
    if !is_mark(format, bytes) {
        return Err(StateCause::Mark);
    }
    match format {
        Format::Dks1 => Ok(Stage::LedgerCount),
        Format::Dks2 => Ok(Stage::Horizon),
    }
}

/// Reads the horizon and sets it. Returns `Horizon` if the bytes aren't a day number.
fn after_horizon<K: PartKeeper>(
    parts: &mut PartsSoFar<K>,
    bytes: &[u8],
) -> Result<Stage, StateCause>
    ghost format: { formats.Format }
    requires fresh { IsFresh Stage.Horizon parts.old }
    requires wide { length bytes.now ≡ HORIZON }
    ensures { (lines : List (List ℕ)) →
        Judges format before_horizon bytes.now parts.new lines result }
{
    match Day::from_number(number_16(bytes, 0)) {
        Some(day) => {
            parts.set_horizon(day);
            Ok(Stage::LedgerCount)
        }
        None => Err(StateCause::Horizon),
    }
}

/// The stage after the ledger items that were read. The next part is another item or, if all
/// `count` items were read, the number of entries.
fn stage_in_ledger<K: PartKeeper>(count: u64, parts: &PartsSoFar<K>) -> Stage
    requires entries { parts.now.entries ≡ [] }
    ensures is { (lines : List (List ℕ)) →
        stage_meant result parts.now lines
        ≡ after_items parts.now.horizon count parts.now.ledger }
    ensures fresh { IsFresh result parts.now }
{
    if parts.ledger().len() as u64 >= count {
        Stage::EntryCount
    } else {
        Stage::Item(count)
    }
}

/// The stage after the entries that were read. The next part is the tag of another entry. If all
/// `count` entries were read, the text has ended.
fn stage_in_entries<K: PartKeeper>(count: u64, parts: &PartsSoFar<K>) -> Stage
    ensures is { (lines : List (List ℕ)) →
        stage_meant result parts.now lines ≡ after_entries count parts.now }
    ensures fresh { IsFresh result parts.now }
{
    if parts.len() >= count {
        Stage::End
    } else {
        Stage::Tag(count)
    }
}

/// Reads a ledger item and gives it to the keeper. Fails if the item is bad or memory runs out.
fn after_item<K: PartKeeper>(
    count: u64,
    parts: &mut PartsSoFar<K>,
    bytes: &[u8],
) -> Result<Stage, StateCause>
    ghost format: { formats.Format }
    requires good { AreGood format
        (before_item parts.old.horizon count parts.old.ledger) }
    requires fresh { parts.old.entries ≡ [] }
    requires wide { length bytes.now ≡ ITEM }
    ensures { (lines : List (List ℕ)) →
        Judges format (before_item parts.old.horizon count parts.old.ledger) bytes.now
        parts.new lines result }
{
    let item = judged_item(parts.ledger(), bytes)?;
    parts.item(item)?;
    Ok(stage_in_ledger(count, parts))
}

/// Reads the tag of an entry. Returns `Tag` if the byte isn't a tag.
fn after_tag(count: u64, bytes: &[u8]) -> Result<Stage, StateCause>
    ghost format: { formats.Format }
    requires { length bytes.now ≡ TAG }
    ensures { (state : states.State) (lines : List (List ℕ)) →
        Judges format (in_entry count state before_tag) bytes.now state lines result }
{
    match bytes[0] {
        TIPLOC_TAG => Ok(Stage::Key(count, Tag::Tiploc)),
        ASSOC_TAG => Ok(Stage::Key(count, Tag::Assoc)),
        SCHEDULE_TAG => Ok(Stage::Key(count, Tag::Schedule)),
        _ => Err(StateCause::Tag),
    }
}

/// Reads the key of an entry. Fails if the key is bad or isn't above the previous key.
fn after_key<K: PartKeeper>(
    count: u64,
    tag: Tag,
    parts: &PartsSoFar<K>,
    bytes: &[u8],
) -> Result<Stage, StateCause>
    ghost format: { formats.Format }
    requires good { AreGood format (in_entry count parts.now (before_key (tag_meant tag))) }
    requires wide { length bytes.now ≡ key_width (tag_meant tag) }
    ensures { (lines : List (List ℕ)) →
        Judges format (in_entry count parts.now (before_key (tag_meant tag))) bytes.now
        parts.now lines result }
{
    let key = judged_key(tag, parts, bytes)?;
    Ok(Stage::Stamp(count, key))
}

/// Reads the stamp of an entry. Returns `Stamp` if no change from a file in the ledger can have
/// this stamp.
fn after_stamp<K: PartKeeper>(
    count: u64,
    key: Key,
    parts: &PartsSoFar<K>,
    bytes: &[u8],
) -> Result<Stage, StateCause>
    ghost format: { formats.Format }
    requires good { AreGood format (in_entry count parts.now (before_stamp (key_meant key))) }
    requires wide { length bytes.now ≡ STAMP }
    ensures { (lines : List (List ℕ)) →
        Judges format (in_entry count parts.now (before_stamp (key_meant key))) bytes.now
        parts.now lines result }
{
    match judged_stamp(parts.ledger(), bytes) {
        Some(stamp) => Ok(Stage::Op(count, key, stamp)),
        None => Err(StateCause::Stamp),
    }
}

/// Gives the keeper an entry whose parts have all been read, and returns the next stage.
fn give<K: PartKeeper>(
    count: u64,
    parts: &mut PartsSoFar<K>,
    key: Key,
    stamp: Stamp,
    op: Op,
) -> Result<Stage, StateCause>
    requires more { length parts.old.entries < count }
    requires here { IsStampHere parts.old (key_meant key) (stamp_meant stamp) }
    requires agrees { IsOpOf (key_meant key) (op_meant op) }
    ensures ok { IfOk result (λ stage. (lines : List (List ℕ)) →
        stage_meant stage parts.new lines ≡ after_entries count
        (with_entry parts.old (key_meant key) (stamp_meant stamp) (op_meant op))) }
    ensures fresh { IfOk result (λ stage. IsFresh stage parts.new) }
    ensures err { IfErr result (λ cause. cause ≡ StateCause.Memory) }
{
    parts.entry(key, Entry { stamp, op })?;
    Ok(stage_in_entries(count, parts))
}

/// Reads the op of an entry. The op of a put is followed by a body. Any other op completes the
/// entry. Returns `Body` if the byte isn't an op of the format.
fn after_op<K: PartKeeper>(
    format: Format,
    count: u64,
    key: Key,
    stamp: Stamp,
    parts: &mut PartsSoFar<K>,
    bytes: &[u8],
) -> Result<Stage, StateCause>
    requires good { AreGood (format_meant format)
        (in_entry count parts.old (before_op (key_meant key) (stamp_meant stamp))) }
    requires wide { length bytes.now ≡ OP }
    ensures { (lines : List (List ℕ)) →
        Judges (format_meant format)
        (in_entry count parts.old (before_op (key_meant key) (stamp_meant stamp))) bytes.now
        parts.new lines result }
{
    match (format, bytes[0]) {
        (_, DELETED) => give(count, parts, key, stamp, Op::Deleted),
        (_, PUT) => Ok(Stage::Body(count, key, stamp)),
        (Format::Dks2, LAPSED) => give(count, parts, key, stamp, Op::Lapsed),
        _ => Err(StateCause::Body),
    }
}

/// Reads the body of a TIPLOC, which completes the entry. Returns `Body` if a byte isn't printable.
fn after_tiploc_body<K: PartKeeper>(
    count: u64,
    code: Tiploc,
    stamp: Stamp,
    parts: &mut PartsSoFar<K>,
    bytes: &[u8],
) -> Result<Stage, StateCause>
    ghost format: { formats.Format }
    requires good { AreGood format
        (in_entry count parts.old (before_body (tiploc_key code) (stamp_meant stamp))) }
    requires wide { length bytes.now ≡ TIPLOC_BODY }
    ensures { (lines : List (List ℕ)) →
        Judges format
        (in_entry count parts.old (before_body (tiploc_key code) (stamp_meant stamp)))
        bytes.now parts.new lines result }
{
    match tiploc_body(bytes) {
        Some(body) => give(count, parts, Key::Tiploc(code), stamp, Op::Put(body)),
        None => Err(StateCause::Body),
    }
}

/// Reads the body of an association, which completes the entry. Returns `Body` if the bytes aren't
/// a body for the key, or if the association ends before the horizon.
fn after_assoc_body<K: PartKeeper>(
    count: u64,
    key: AssocKey,
    stamp: Stamp,
    parts: &mut PartsSoFar<K>,
    bytes: &[u8],
) -> Result<Stage, StateCause>
    ghost format: { formats.Format }
    requires good { AreGood format (in_entry count parts.old
        (before_body (association_key (association_key_meant key)) (stamp_meant stamp))) }
    ensures { (lines : List (List ℕ)) →
        Judges format (in_entry count parts.old
        (before_body (association_key (association_key_meant key)) (stamp_meant stamp))) bytes.now
        parts.new lines result }
{
    match assoc_body(&key, parts.horizon(), bytes) {
        Some(body) => give(count, parts, Key::Assoc(key), stamp, Op::Put(body)),
        None => Err(StateCause::Body),
    }
}

/// Reads the number of a schedule's lines from four bytes. Returns `None` if no schedule can have
/// this many lines.
pub(crate) fn line_count(bytes: &[u8]) -> Option<u32>
    requires { length bytes.now ≡ LINE_COUNT }
    ensures { MatchOption result (¬ IsLineCount (from_be_bytes w32 bytes.now))
        (λ count. (count ≡ from_be_bytes w32 bytes.now)
        × IsLineCount (from_be_bytes w32 bytes.now)) }
{
    let count = number_32(bytes, 0);
    if count == 0 {
        return None;
    }
    if count > MOST_LINES {
        return None;
    }
    Some(count)
}

/// Reads the number of a schedule's lines, and drops the previous schedule's lines. Returns `Body`
/// if no schedule can have this many lines.
fn after_line_count(
    count: u64,
    key: ScheduleKey,
    stamp: Stamp,
    lines: &mut Gathered,
    bytes: &[u8],
) -> Result<Stage, StateCause>
    ghost format: { formats.Format }
    requires { length bytes.now ≡ LINE_COUNT }
    ensures { (state : states.State) →
        Judges format (in_entry count state
        (before_body (schedule_key (schedule_key_meant key)) (stamp_meant stamp))) bytes.now
        state lines.new result }
{
    match line_count(bytes) {
        Some(lines_named) => {
            lines.clear();
            Ok(Stage::Line(count, key, stamp, lines_named))
        }
        None => Err(StateCause::Body),
    }
}

/// The schedule whose lines are being read: its key, its stamp and the number of its lines.
#[derive(Clone, Copy)]
struct Schedule {
    key: ScheduleKey,
    stamp: Stamp,
    count: u32,
}

/// Reads the last line of a schedule, which completes the entry. Returns `Body` if the lines aren't
/// a schedule with this key.
fn after_last_line<K: PartKeeper>(
    alloc: Global,
    count: u64,
    schedule: Schedule,
    parts: &mut PartsSoFar<K>,
    lines: &mut Gathered,
    bytes: &[u8],
) -> Result<Stage, StateCause>
    ghost format: { formats.Format }
    requires good { AreGood format (in_entry count parts.old (before_line
        (schedule_key_meant schedule.key) (stamp_meant schedule.stamp) schedule.count lines.old)) }
    requires last { schedule.count ≤ length lines.old + 1 }
    ensures { Judges format (in_entry count parts.old (before_line
        (schedule_key_meant schedule.key) (stamp_meant schedule.stamp) schedule.count lines.old))
        bytes.now parts.new lines.new result }
{
    judged_line(&schedule.key, parts, schedule.count, lines, bytes)?;
    let op = Op::Put(Body::Schedule(lines.take_body(alloc)?));
    let key = Key::Schedule(schedule.key);
    give(count, parts, key, schedule.stamp, op)
}

/// Reads the next part and returns the stage after it, or why it can't be read. If the
/// part is a line, it must be the last line of its schedule: `judged_inner_line` reads the lines
/// before it.
pub fn step<K: PartKeeper>(
    alloc: Global,
    format: Format,
    stage: Stage,
    parts: &mut PartsSoFar<K>,
    lines: &mut Gathered,
    bytes: &[u8],
) -> Result<Stage, StateCause>
    ghost meant: { formats.Format }
    requires format { meant ≡ format_meant format }
    requires ready { IsReady meant stage parts.old lines.old }
    requires wide { length bytes.now ≡ width (stage_meant stage parts.old lines.old) }
    requires some { 0 < length bytes.now }
    requires last { IsLast stage lines.old }
    ensures { Judges meant (stage_meant stage parts.old lines.old) bytes.now
        parts.new lines.new result }
{
    match stage {
        Stage::Mark => after_mark(format, bytes),
        Stage::Horizon => after_horizon(parts, bytes),
        Stage::LedgerCount => Ok(stage_in_ledger(number_64(bytes, 0), parts)),
        Stage::Item(count) => after_item(count, parts, bytes),
        Stage::EntryCount => Ok(stage_in_entries(number_64(bytes, 0), parts)),
        Stage::Tag(count) => after_tag(count, bytes),
        Stage::Key(count, tag) => after_key(count, tag, parts, bytes),
        Stage::Stamp(count, key) => after_stamp(count, key, parts, bytes),
        Stage::Op(count, key, stamp) => after_op(format, count, key, stamp, parts, bytes),
        Stage::Body(count, key, stamp) => match key {
            Key::Tiploc(code) => after_tiploc_body(count, code, stamp, parts, bytes),
            Key::Assoc(key) => after_assoc_body(count, key, stamp, parts, bytes),
            Key::Schedule(key) => after_line_count(count, key, stamp, lines, bytes),
        },
        Stage::Line(entries, key, stamp, count) => {
            let schedule = Schedule { key, stamp, count };
            after_last_line(alloc, entries, schedule, parts, lines, bytes)
        }
        Stage::End => unreachable!(),
    }
}
