//! Reads the lines of a schedule.
ghost use Rattle.std.specs.Prelude.{◌≡◌, ◌+◌, ◌-◌, ◌<◌, ◌↔◌, ◌⊎◌, [], ◌∷◌, ◌++◌, ℕ, length, false, IsTrue, IsOk, IfOk, IfErr, List};
ghost use Rattle.cif_change.specs.JourneyRead.{HasLines};
ghost use Rattle.docker_model.specs.file.File.{BeginsSchedule};
ghost use Rattle.cif_change.specs.Meaning.{schedule_key_meant};
ghost use Rattle.state_text.specs.Judged.{IsOfKey, IsFirstOf};
ghost use Rattle.state_text.specs.FaultMeaning.{cause_meant};
ghost use Rattle.state_text.specs.Lines.{BeginUpTo, AreLinesIn, AreLinesUpToIn, IsLineRefusal, IsUpToRefusal};

use crate::body::is_first_of;
use crate::cause::StateCause;
use crate::format::LINE;
use crate::keeper::PartKeeper;
use crate::parts_so_far::PartsSoFar;
use cif_file::{Journey, Lines, ScheduleKey};
use cif_line::Line;
use std::alloc::{AllocError, Global};
use std::marker::Model;
use std::{mem, slice};

/// The lines of a schedule that were read, in one buffer, and the `Journey` that judges them.
#[derive(Debug, Drop)]
pub struct Gathered {
    journey: Journey,
    lines: Vec<Line>,
}

impl Model for Gathered {
    ghost Value = { List (List ℕ) };

    ghost view = { λ gathered. gathered.lines.items };

    ghost invariant = { λ gathered. HasLines gathered.journey gathered.lines.items };
}

/// Drops the lines and keeps the buffer's memory.
fn let_go(journey: &mut Journey, lines: &mut Vec<Line>)
    ensures none { lines.new.items ≡ [] }
    ensures reader { HasLines journey.new lines.new.items }
{
    *journey = Journey::new();
    lines.clear();
}

/// Replaces the memory of an empty buffer, unless the buffer already has room for exactly `count`
/// lines. The new memory has room for `count` lines. If memory runs out, the buffer is unchanged.
fn room_for(lines: &mut Vec<Line>, alloc: Global, count: usize)
    requires { lines.old.items ≡ [] }
    ensures { lines.new.items ≡ [] }
{
    if lines.capacity() == count {
        return;
    }
    if let Ok(more) = Vec::with_capacity(alloc, count) {
        *lines = more;
    }
}

impl Gathered {
    /// Returns a buffer without lines.
    pub fn new(alloc: Global) -> Gathered
        ensures { result ≡ [] }
    {
        Gathered {
            journey: Journey::new(),
            lines: Vec::new(alloc),
        }
    }

    /// Drops the lines.
    pub fn clear(&mut self)
        ensures { self.new ≡ [] }
    {
        let_go(&mut self.journey, &mut self.lines);
    }

    /// How many lines were read.
    pub(crate) fn len(&self) -> usize
        ensures { result ≡ length self.now }
    {
        self.lines.len()
    }

    /// Whether no lines were read.
    fn is_empty(&self) -> bool
        ensures { IsTrue result ↔ (self.now ≡ []) }
    {
        self.lines.is_empty()
    }

    /// Whether more lines follow the next line in a schedule of `count` lines.
    pub fn has_more(&self, count: u32) -> bool
        ensures { IsTrue result ↔ (length self.now + 1 < count) }
    {
        if count == 0 {
            return false;
        }
        self.lines.len() < (count - 1) as usize
    }

    /// How many lines are still to be read before the last line, in a schedule of `count` lines.
    pub fn before_last(&self, count: u32) -> usize
        ensures { result ≡ count - 1 - length self.now }
    {
        (count as usize)
            .saturating_sub(1)
            .saturating_sub(self.lines.len())
    }

    /// Allocates room for all `count` lines at once, if no line was read and the next `bytes` bytes
    /// contain all the lines. If memory runs out, nothing fails here: room is allocated later, as
    /// lines are added.
    pub fn make_room(&mut self, alloc: Global, count: u32, bytes: usize)
        ensures { self.new ≡ self.old }
    {
        if bytes / LINE < count as usize {
            return;
        }
        if self.lines.is_empty() {
            room_for(&mut self.lines, alloc, count as usize);
        }
    }

    /// Returns the lines in memory of exactly their size. They are copied only if the buffer's
    /// memory is larger than the lines need.
    pub(crate) fn take_body(&mut self, alloc: Global) -> Result<Lines, AllocError>
        ensures { IfOk result (λ lines. lines ≡ self.old) }
    {
        if self.lines.capacity() == self.lines.len() {
            self.journey = Journey::new();
            return Ok(Lines::of(mem::replace(&mut self.lines, Vec::new(alloc))));
        }
        let mut body = Vec::with_capacity(alloc, self.lines.len())?;
        body.extend_from_slice(self.lines.as_slice())?;
        Ok(Lines::of(body))
    }

    /// Judges the next line of a schedule of `count` lines, and then adds the line. Returns `Body`
    /// if no schedule begins with the lines that were read and this line; the lines that were read
    /// are then unchanged. Also returns `Body` if this is the last line and the lines with it
    /// aren't a schedule; all lines are then dropped. If memory runs out, all lines are dropped
    /// too.
    fn take(&mut self, line: &Line, count: u32) -> Result<(), StateCause>
        requires { length self.old < count }
        ensures taken { IsOk result → self.new ≡ self.old ++ line.now ∷ [] }
        ensures goes_on { IsOk result → BeginUpTo count (self.old ++ line.now ∷ []) }
        ensures err { IfErr result (λ cause. IsLineRefusal count self.old line.now
            (cause_meant cause)) }
        ensures kept { (¬ BeginsSchedule (self.old ++ line.now ∷ [])) → self.new ≡ self.old }
    {
        let is_last = !self.has_more(count);
        if self.journey.line(line).is_err() {
            return Err(StateCause::Body);
        }
        if is_last && !self.journey.complete() {
            let_go(&mut self.journey, &mut self.lines);
            return Err(StateCause::Body);
        }
        if self.lines.extend_from_slice(slice::from_ref(line)).is_err() {
            let_go(&mut self.journey, &mut self.lines);
            return Err(StateCause::Memory);
        }
        Ok(())
    }

    /// Adds the next line of a schedule of `count` lines to a full buffer, which has to grow.
    /// Returns `Body` if the bytes aren't a line, and for the reasons given at `take`.
    #[cold]
    #[inline(never)]
    fn take_growing(&mut self, bytes: &[u8], count: u32) -> Result<(), StateCause>
        requires { length self.old < count }
        ensures taken { IsOk result → self.new ≡ self.old ++ bytes.now ∷ [] }
        ensures goes_on { IsOk result → BeginUpTo count (self.old ++ bytes.now ∷ []) }
        ensures err { IfErr result (λ cause. IsLineRefusal count self.old bytes.now
            (cause_meant cause)) }
        ensures kept { (¬ BeginsSchedule (self.old ++ bytes.now ∷ [])) → self.new ≡ self.old }
    {
        let Some(line) = Line::of(bytes) else {
            return Err(StateCause::Body);
        };
        self.take(&line, count)
    }

    /// Adds the next line of a schedule of `count` lines; it must not be the last line. If the
    /// buffer has room, the line is first added and then judged. A refused line is removed again.
    #[inline(always)]
    fn take_inner(&mut self, bytes: &[u8], count: u32) -> Result<(), StateCause>
        requires { length self.old + 1 < count }
        ensures taken { IsOk result → self.new ≡ self.old ++ bytes.now ∷ [] }
        ensures goes_on { IsOk result → BeginUpTo count (self.old ++ bytes.now ∷ []) }
        ensures err { IfErr result (λ cause. IsLineRefusal count self.old bytes.now
            (cause_meant cause)) }
        ensures kept { (¬ BeginsSchedule (self.old ++ bytes.now ∷ [])) → self.new ≡ self.old }
    {
        let at = self.lines.len();
        if at == self.lines.capacity() {
            return self.take_growing(bytes, count);
        }
        let Some(line) = Line::of(bytes) else {
            return Err(StateCause::Body);
        };
        self.lines.push_reserved(line);
        if self.journey.line(&self.lines[at]).is_err() {
            self.lines.truncate(at);
            return Err(StateCause::Body);
        }
        Ok(())
    }
}

/// Whether the key and the horizon allow this line to come next. They allow any line after the
/// first. The first line must have the transaction `N` and this key, and its schedule must not end
/// before the horizon. `Journey::line` judges the other fields.
fn may_follow<K: PartKeeper>(
    key: &ScheduleKey,
    parts: &PartsSoFar<K>,
    lines: &Gathered,
    line: &Line,
) -> bool
    ensures first { IsTrue result → lines.now ≡ [] →
        IsOfKey parts.now.horizon (schedule_key_meant key.now) line.now }
    ensures refused { result ≡ false → (lines.now ≡ []) ×
        (¬ IsFirstOf parts.now.horizon (schedule_key_meant key.now) line.now) }
{
    !lines.is_empty() || is_first_of(key, parts.horizon(), line)
}

/// Judges the next line of the schedule with this key and `count` lines, and then adds the line.
/// Returns `Body` if the line doesn't continue such a schedule, or if the schedule ended before the
/// horizon that was read. Returns `Memory` if there is no memory for the line.
pub fn judged_line<K: PartKeeper>(
    key: &ScheduleKey,
    parts: &PartsSoFar<K>,
    count: u32,
    lines: &mut Gathered,
    bytes: &[u8],
) -> Result<(), StateCause>
    requires lines_of { (lines.old ≡ [])
        ⊎ AreLinesIn parts.now (schedule_key_meant key.now) lines.old }
    requires more { length lines.old < count }
    ensures taken { IsOk result → lines.new ≡ lines.old ++ bytes.now ∷ [] }
    ensures up_to { IsOk result → AreLinesUpToIn parts.now (schedule_key_meant key.now) count
        (lines.old ++ bytes.now ∷ []) }
    ensures err { IfErr result (λ cause. IsUpToRefusal parts.now
        (schedule_key_meant key.now) count lines.old bytes.now (cause_meant cause)) }
{
    let Some(line) = Line::of(bytes) else {
        return Err(StateCause::Body);
    };
    if !may_follow(key, parts, lines, &line) {
        return Err(StateCause::Body);
    }
    lines.take(&line, count)
}

/// Does the same as `judged_line`, for any line but the last of the `count` lines.
#[inline(always)]
pub fn judged_inner_line<K: PartKeeper>(
    key: &ScheduleKey,
    parts: &PartsSoFar<K>,
    count: u32,
    lines: &mut Gathered,
    bytes: &[u8],
) -> Result<(), StateCause>
    requires lines_of { (lines.old ≡ [])
        ⊎ AreLinesIn parts.now (schedule_key_meant key.now) lines.old }
    requires more { length lines.old + 1 < count }
    ensures taken { IsOk result → lines.new ≡ lines.old ++ bytes.now ∷ [] }
    ensures up_to { IsOk result → AreLinesUpToIn parts.now (schedule_key_meant key.now) count
        (lines.old ++ bytes.now ∷ []) }
    ensures err { IfErr result (λ cause. IsUpToRefusal parts.now
        (schedule_key_meant key.now) count lines.old bytes.now (cause_meant cause)) }
{
    if lines.is_empty() {
        return judged_line(key, parts, count, lines, bytes);
    }
    lines.take_inner(bytes, count)
}
