//! A line of a CIF file: 80 printable bytes.
ghost use Rattle.std.specs.Prelude.{◌≡◌, ℕ, ◌↔◌, ◌<◌, length, IsTrue, IsOk, IfOk, Ok, Err, Some, IsSome, IsNone, IfSome, position, not, ◌≤◌, ◌-◌, ◌+◌, true};
ghost use Rattle.std.specs.Prelude.{List};
ghost use Rattle.std.specs.List.{AllPass};
ghost use Rattle.docker_model.specs.records.Field.{as_new};
ghost use Rattle.docker_model.specs.records.Record.{IsTextOfLength, IsRecord, leftmost_bad_byte, is_printable, column};
ghost use Rattle.cif_line.specs.FieldRead.{field_at};

use crate::printable::is_printable_line;
use std::marker::Model;
use thiserror::Error;

/// A line of a CIF file: 80 bytes, each from a space (0x20) to a tilde (0x7E).
#[derive(Clone, Copy, PartialEq, Eq, PartialOrd, Ord, Debug)]
pub struct Line {
    bytes: [u8; 80],
}

impl Model for Line {
    ghost Value = { List ℕ };

    ghost view = { λ line. line.bytes };

    ghost invariant = { λ line. IsRecord line.bytes };

    ghost inverse = { λ bytes. record { bytes = bytes } };
}

/// The reason why bytes aren't a line. The length is checked first.
#[derive(Clone, Copy, PartialEq, Eq, Debug, Error)]
pub enum LineFault {
    /// The number of bytes isn't 80.
    #[error("Length")]
    Length,
    /// A byte isn't printable. The number is the column of the leftmost bad byte. Columns count
    /// from 1.
    #[error("Byte {0}")]
    Byte(u8),
}

impl Line {
    /// Makes a line of these bytes. Returns `Length` if there aren't 80 of them, and otherwise
    /// `Byte` if one isn't printable.
    pub fn new(bytes: &[u8]) -> Result<Line, LineFault>
        ensures ok { IsOk result ↔ IsRecord bytes.now }
        ensures value { IfOk result (λ line. line ≡ bytes.now) }
        ensures length { (result ≡ Err LineFault.Length) ↔ (¬ (length bytes.now ≡ 80)) }
        ensures byte { (column : ℕ) → (result ≡ Err (LineFault.Byte column)) ↔
            ((length bytes.now ≡ 80) × (leftmost_bad_byte bytes.now ≡ Some column)) }
    {
        let Ok(bytes) = <[u8; 80]>::try_from(bytes) else {
            return Err(LineFault::Length);
        };
        if is_printable_line(&bytes) {
            return Ok(Line { bytes });
        }
        Err(LineFault::Byte(bad_column(&bytes)))
    }

    /// Makes a line of these bytes. Returns `None` if there aren't 80 of them, or if one of them
    /// isn't printable. A caller that needn't know why the bytes aren't a line uses this call
    /// instead of `new`. It is faster, since the 80 bytes share no memory with a fault and are
    /// copied only once.
    pub fn of(bytes: &[u8]) -> Option<Line>
        ensures some { IsSome result ↔ IsRecord bytes.now }
        ensures value { IfSome result (λ line. line ≡ bytes.now) }
    {
        let Ok(eighty) = <[u8; 80]>::try_from(bytes) else {
            return None;
        };
        if is_printable_line(&eighty) {
            return Some(Line { bytes: eighty });
        }
        None
    }

    /// The `N` bytes of the line that begin at column `first`. Columns count from 1.
    pub fn field<const N: usize>(&self, first: usize) -> &[u8; N]
        requires from { 0 < first }
        requires within { first - 1 + N ≤ 80 }
        ensures bytes { result.now ≡ field_at first N self.now }
        ensures text { IsTextOfLength N result.now }
    {
        match self.bytes[first - 1..first - 1 + N].first_chunk() {
            Some(field) => field,
            None => unreachable!(),
        }
    }

    /// The byte in column `n`. Columns count from 1.
    pub fn column(&self, n: usize) -> u8
        requires from { 0 < n }
        requires within { n ≤ 80 }
        ensures byte { result ≡ column n self.now }
        ensures printable { is_printable result ≡ true }
    {
        self.bytes[n - 1]
    }

    /// This line with column 3, the transaction of a basic schedule (BS) or an association (AA),
    /// set to `N`.
    pub fn as_new(mut self) -> Line
        ensures { result ≡ as_new self }
    {
        self.bytes[2] = b'N';
        self
    }

    /// The 80 bytes of the line.
    pub fn bytes(&self) -> &[u8; 80]
        ensures bytes { result.now ≡ self.now }
        ensures record { IsRecord self.now }
    {
        &self.bytes
    }
}

/// Whether a line may contain this byte: the byte is from a space (0x20) to a tilde (0x7E).
pub fn is_printable(byte: u8) -> bool
    ensures { result ≡ is_printable byte }
{
    b' ' <= byte && byte <= b'~'
}

/// The index of the leftmost byte that isn't printable. Returns `None` if all bytes are printable.
fn first_bad_index(bytes: &[u8]) -> Option<usize>
    ensures value { result ≡ position (λ b. not (is_printable b)) bytes.now }
    ensures within { IfSome result (λ index. index < length bytes.now) }
    ensures none { IsNone result ↔ AllPass is_printable bytes.now }
{
    bytes.iter().position(|byte| !is_printable(*byte))
}

/// The column, counted from 1, of the leftmost byte that isn't printable. There must be such a
/// byte. The search tests one byte after another.
#[tactic(auto, using(cif_laws::proofs::records::RecordTests::no_bad_byte))]
fn bad_column(bytes: &[u8; 80]) -> u8
    requires { ¬ (AllPass is_printable bytes.now) }
    ensures { leftmost_bad_byte bytes.now ≡ Some result }
{
    match first_bad_index(bytes) {
        Some(index) => index as u8 + 1,
        None => unreachable!(),
    }
}

/// Whether a line may contain all of these bytes.
pub(crate) fn are_printable(bytes: &[u8]) -> bool
    ensures { IsTrue result ↔ AllPass is_printable bytes.now }
{
    bytes.iter().all(|byte| is_printable(*byte))
}
