//! Reads the text of a state in pieces, and judges it part by part.
ghost use Rattle.std.specs.Prelude.{◌≡◌, ◌+◌, ◌-◌, ◌/◌, ◌<◌, ◌≤◌, ◌↔◌, [], ◌++◌, length, min, take, IsTrue, IsOk, IsErr, IfOk, IfErr};
ghost use Rattle.docker_model.specs.state.StatePart.{width};
ghost use Rattle.state_text.specs.FormatMeaning.{format_meant};
ghost use Rattle.docker_bytes.specs.StateReading.{format_of, before_of, text_of, IsReading, ReadsOn, IsPartRefused, IsFaultReported, IsUnended, IsStep, IsMadeOf, JoinsText, IsInnerLine, HasOneLineMore};

use crate::fault::{StateFault, Step};
use arrayvec::ArrayVec;
use fixed_text::put;
use state_text::format::{Format, LINE};
use state_text::{
    Gathered, Maker, PartKeeper, PartsSoFar, Received, Receiver, ScheduleKey, Stage, State,
    StateCause, judged_inner_line, put_head, step,
};
use std::alloc::Global;

/// The progress of reading a text up to some byte. It keeps the data of the complete parts and the
/// kind of the next part. It also keeps the bytes of the next part that were read, and the offset
/// at which this part's item began.
#[derive(Debug, Drop)]
pub(crate) struct StateReading<K: PartKeeper> {
    alloc: Global,
    format: Format,
    limit: u64,
    stage: Stage,
    parts: PartsSoFar<K>,
    lines: Gathered,
    partial: ArrayVec<u8, LINE>,
    item_at: u64,
    reached: u64,
}

impl<K: PartKeeper> StateReading<K> {
    /// A reading that hasn't read any byte, for a text in this format of at most `limit` bytes.
    pub(crate) fn new(
        alloc: Global,
        format: Format,
        limit: u64,
        parts: PartsSoFar<K>,
    ) -> StateReading<K>
        requires { parts ≡ record { horizon = 0; ledger = []; entries = [] } }
        ensures reading { IsReading result }
        ensures text { text_of result ≡ [] }
        ensures limit { result.limit ≡ limit }
        ensures format { format_of result ≡ format_meant format }
    {
        StateReading {
            alloc,
            format,
            limit,
            stage: Stage::Mark,
            parts,
            lines: Gathered::new(alloc),
            partial: ArrayVec::new(),
            item_at: 0,
            reached: 0,
        }
    }

    /// The number of bytes that were read.
    pub(crate) fn offset(&self) -> u64
        requires { IsReading self.now }
        ensures { result ≡ length (text_of self.now) }
    {
        self.reached + self.partial.len() as u64
    }

    /// Whether the last part of the state has been read.
    pub(crate) fn is_done(&self) -> bool
        ensures { IsTrue result ↔ (width (before_of self.now) ≡ 0) }
    {
        self.stage.width() == 0
    }

    /// The fault of a text that is longer than the limit allows.
    fn long(&self) -> StateFault
        ensures { result ≡ record { at = self.now.limit; cause = StateCause.Long } }
    {
        StateFault {
            at: self.limit,
            cause: StateCause::Long,
        }
    }

    /// The fault of a bad part. Its offset is the beginning of the part's item.
    fn bad(&self, cause: StateCause) -> StateFault
        ensures { result ≡ record { at = self.now.item_at; cause = cause } }
    {
        StateFault {
            at: self.item_at,
            cause,
        }
    }

    /// Takes a complete line that isn't its schedule's last line, so the stage is unchanged.
    #[inline(always)]
    fn take_line(&mut self, key: &ScheduleKey, count: u32, bytes: &[u8]) -> Result<(), StateFault>
        requires reading { IsReading self.old }
        requires inner { IsInnerLine key.now count self.old }
        requires wide { length bytes.now ≡ LINE }
        requires fits { self.old.reached + length bytes.now ≤ self.old.limit }
        ensures ok { IsOk result → ReadsOn self.old self.new bytes.now }
        ensures err { IfErr result (λ fault. IsPartRefused self.old bytes.now fault) }
        ensures next { IsOk result → HasOneLineMore self.old self.new }
    {
        match judged_inner_line(key, &self.parts, count, &mut self.lines, bytes) {
            Ok(()) => {
                self.reached += bytes.len() as u64;
                Ok(())
            }
            Err(cause) => Err(self.bad(cause)),
        }
    }

    /// How many lines at the front of a piece of `len` bytes can be taken in one step. These lines
    /// are complete, end within the limit, and don't include the last of the schedule's `count`
    /// lines.
    fn inner_lines(&self, count: u32, len: usize) -> u64
        requires { self.now.reached ≤ self.now.limit }
        ensures { result ≡ min (min (len / LINE) ((self.now.limit - self.now.reached) / LINE))
            (count - 1 - length self.now.lines) }
    {
        let held = (len / LINE) as u64;
        let allowed = (self.limit - self.reached) / LINE as u64;
        held.min(allowed).min(self.lines.before_last(count) as u64)
    }

    /// Reserves room for all lines of the schedule, if the piece has all of them.
    fn make_room(&mut self, count: u32, piece: &[u8])
        ensures { self.new ≡ self.old }
    {
        self.lines.make_room(self.alloc, count, piece.len());
    }

    /// Takes the complete lines at the front of a piece, up to but not including the schedule's
    /// last line. Computes the number of lines to take only once. Takes no lines if the next part
    /// isn't a line, or if some bytes of the next part have already been read. Returns the bytes
    /// after the lines that it took.
    fn take_lines<'a>(&mut self, piece: &'a [u8]) -> Result<&'a [u8], StateFault>
        requires { IsReading self.old }
        ensures rest { IfOk result (λ behind.
            take (length piece.now - length behind.now) piece.now ++ behind.now ≡ piece.now) }
        ensures on { IfOk result (λ behind.
            ReadsOn self.old self.new (take (length piece.now - length behind.now) piece.now)) }
        ensures err { IfErr result (λ fault. IsFaultReported (format_of self.old) self.old.limit
            (text_of self.old) piece.now fault) }
    {
        let Stage::Line(_entries, key, _stamp, count) = self.stage else {
            return Ok(piece);
        };
        if !self.partial.is_empty() {
            return Ok(piece);
        }
        self.make_room(count, piece);
        let mut more = self.inner_lines(count, piece.len());
        let mut rest = piece;
        'lines: while more > 0 {
            let (line, behind) = rest.split_at(LINE);
            self.take_line(&key, count, line)?;
            rest = behind;
            more -= 1;
        }
        Ok(rest)
    }

    /// Takes the head of an entry that has a body, in one step. The head is all parts before the
    /// body. Takes nothing unless the piece begins with the whole head, and the head is good and
    /// ends within the limit. Returns the bytes after the head, or the whole piece if nothing was
    /// taken.
    fn take_head<'a>(&mut self, piece: &'a [u8]) -> &'a [u8]
        requires { IsReading self.old }
        ensures rest { take (length piece.now - length result.now) piece.now ++ result.now
            ≡ piece.now }
        ensures on { ReadsOn self.old self.new
            (take (length piece.now - length result.now) piece.now) }
    {
        let Stage::Tag(count) = self.stage else {
            return piece;
        };
        let Some((stage, len)) = put_head(count, &self.parts, piece) else {
            return piece;
        };
        if len as u64 > self.limit - self.reached {
            return piece;
        }
        let (_head, behind) = piece.split_at(len);
        self.lines.clear();
        self.stage = stage;
        self.reached += len as u64;
        behind
    }

    /// Takes a complete part, all of whose bytes are in one piece. The stage stays the same if the
    /// part is a line, but not its schedule's last line.
    fn judge(&mut self, bytes: &[u8]) -> Result<(), StateFault>
        requires reading { IsReading self.old }
        requires fresh { self.old.partial.items ≡ [] }
        requires wide { length bytes.now ≡ width (before_of self.old) }
        requires some { 0 < length bytes.now }
        requires fits { self.old.reached + length bytes.now ≤ self.old.limit }
        ensures ok { IsOk result → ReadsOn self.old self.new bytes.now }
        ensures err { IfErr result (λ fault. IsPartRefused self.old bytes.now fault) }
    {
        if let Stage::Line(_entries, key, _stamp, count) = self.stage {
            if self.lines.has_more(count) {
                return self.take_line(&key, count, bytes);
            }
        }
        match step(
            self.alloc,
            self.format,
            self.stage,
            &mut self.parts,
            &mut self.lines,
            bytes,
        ) {
            Ok(stage) => {
                self.stage = stage;
                self.reached += bytes.len() as u64;
                if stage.begins_item() {
                    self.item_at = self.reached;
                }
                Ok(())
            }
            Err(cause) => Err(self.bad(cause)),
        }
    }

    /// Takes the bytes that complete a part.
    fn take(&mut self, front: &[u8]) -> Result<(), StateFault>
        requires reading { IsReading self.old }
        requires wide { length self.old.partial.items + length front.now
            ≡ width (before_of self.old) }
        requires some { 0 < length front.now }
        ensures ok { IsOk result → ReadsOn self.old self.new front.now }
        ensures err { IfErr result (λ fault. IsFaultReported (format_of self.old) self.old.limit
            (text_of self.old) front.now fault) }
    {
        if (self.partial.len() + front.len()) as u64 > self.limit - self.reached {
            return Err(self.long());
        }
        if self.partial.is_empty() {
            return self.judge(front);
        }
        let mut part = self.partial.take();
        put(&mut part, front);
        self.judge(part.as_slice())
    }

    /// Keeps the next bytes of a part that is still incomplete afterwards.
    fn keep(&mut self, more: &[u8]) -> Result<(), StateFault>
        requires reading { IsReading self.old }
        requires short { length self.old.partial.items + length more.now
            < width (before_of self.old) }
        ensures ok { IsOk result → ReadsOn self.old self.new more.now }
        ensures err { IfErr result (λ fault. IsFaultReported (format_of self.old) self.old.limit
            (text_of self.old) more.now fault) }
    {
        if (self.partial.len() + more.len()) as u64 > self.limit - self.reached {
            return Err(self.long());
        }
        put(&mut self.partial, more);
        Ok(())
    }

    /// Takes the next bytes, at most up to the end of the state, and returns how many bytes it
    /// took.
    pub(crate) fn read(&mut self, piece: &[u8]) -> Result<(usize, Step), StateFault>
        requires { IsReading self.old }
        ensures within { IfOk result (λ answer. answer.0 ≤ length piece.now) }
        ensures on { IfOk result (λ answer. ReadsOn self.old self.new (take answer.0 piece.now)) }
        ensures step { IfOk result (IsStep (format_of self.old) self.old.limit
            (text_of self.old) piece.now) }
        ensures err { IfErr result (λ fault. IsFaultReported (format_of self.old) self.old.limit
            (text_of self.old) piece.now fault) }
    {
        let mut rest = piece;
        'parts: loop {
            let width = self.stage.width();
            if width == 0 {
                return Ok((piece.len() - rest.len(), Step::Done));
            }
            let missing = width - self.partial.len();
            if rest.len() < missing {
                self.keep(rest)?;
                return Ok((piece.len(), Step::More));
            }
            let (front, behind) = rest.split_at(missing);
            self.take(front)?;
            let after = self.take_head(behind);
            rest = self.take_lines(after)?;
        }
    }
}

impl<K: Maker> StateReading<K> {
    /// Returns the value that the keeper makes from the state whose text was read. If the text ends
    /// before the state does, returns a fault with the cause `Short`.
    pub(crate) fn finish(self) -> Result<K::Made, StateFault>
        requires { IsReading self }
        ensures ok { IfOk result (IsMadeOf K.makes (format_of self) self.limit (text_of self)) }
        ensures err { IfErr result (λ fault. IsUnended (format_of self) self.limit
            (text_of self) fault) }
    {
        let StateReading {
            alloc: _,
            format: _,
            limit: _,
            stage,
            parts,
            lines: _,
            partial: _,
            item_at,
            reached: _,
        } = self;
        if stage.width() > 0 {
            return Err(StateFault {
                at: item_at,
                cause: StateCause::Short,
            });
        }
        match parts.finish() {
            Ok(made) => Ok(made),
            Err(_) => Err(StateFault {
                at: item_at,
                cause: StateCause::Memory,
            }),
        }
    }
}

impl<R: Receiver> StateReading<Received<R>> {
    /// Returns the join of the receiving state with the state whose text was read. If the text ends
    /// before the state does, returns a fault with the cause `Short`. After any fault the receiving
    /// state is returned unchanged.
    pub(crate) fn join(self) -> (State, Result<(), StateFault>)
        requires { IsReading self }
        ensures ok { IsOk result.1
            → JoinsText (format_of self) self.limit (text_of self) R.own result.0 }
        ensures err { IfErr result.1 (λ fault. IsUnended (format_of self) self.limit
            (text_of self) fault) }
        ensures back { IsErr result.1 → result.0 ≡ R.own }
    {
        let at = self.item_at;
        if self.stage.width() > 0 {
            let cause = StateCause::Short;
            return (self.parts.into_own(), Err(StateFault { at, cause }));
        }
        let (state, done) = self.parts.join();
        match done {
            Ok(()) => (state, Ok(())),
            Err(wanting) => {
                let cause = StateCause::from(wanting);
                (state, Err(StateFault { at, cause }))
            }
        }
    }

    /// Returns the receiving state unchanged.
    pub(crate) fn into_own(self) -> State
        ensures { result ≡ R.own }
    {
        self.parts.into_own()
    }
}
