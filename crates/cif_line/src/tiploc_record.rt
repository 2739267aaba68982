//! A TIPLOC record, TI, TA or TD, which describes a timing point.
ghost use Rattle.std.specs.Prelude.{◌≡◌, ℕ, List};
ghost use Rattle.docker_model.specs.records.Record.{kind_of, columns, IsTextOfLength};
ghost use Rattle.cif_line.specs.View.{IsGoodTiploc, new_code_of};

use crate::identity::is_amendment;
use crate::line::Line;
use crate::tiploc_code::Tiploc;
use std::marker::Model;

/// A view of a TIPLOC insert (TI), amendment (TA) or deletion (TD) whose checked fields are good.
#[derive(Debug, Drop)]
pub struct TiplocRecord<'a> {
    line: &'a Line,
}

impl<'a> Model for TiplocRecord<'a> {
    ghost Value = { List ℕ };

    ghost view = { λ tiploc. tiploc.line.now };

    ghost invariant = { λ tiploc. IsGoodTiploc tiploc.line.now };
}

#[tactic(auto, using(crate::proofs::GoodFields::tiploc_fields))]
impl<'a> TiplocRecord<'a> {
    /// Makes a view of a line whose fields have already been checked.
    pub(crate) fn of(line: &'a Line) -> TiplocRecord<'a>
        requires good { IsGoodTiploc line.now }
        ensures line { result ≡ line.entry.now }
    {
        TiplocRecord { line }
    }

    /// The code of the timing point: columns 3 to 9.
    pub fn code(&self) -> Tiploc
        ensures { result ≡ columns 3 9 self.now }
    {
        self.line.tiploc(3)
    }

    /// The details of the timing point: columns 10 to 72.
    pub fn details(&self) -> &'a [u8; 63]
        ensures value { result.now ≡ columns 10 72 self.now }
        ensures text { IsTextOfLength 63 result.now }
    {
        self.line.field(10)
    }

    /// The TPS description, the name of the timing point: columns 19 to 44.
    pub fn description(&self) -> &'a [u8; 26]
        ensures value { result.now ≡ columns 19 44 self.now }
        ensures text { IsTextOfLength 26 result.now }
    {
        self.line.field(19)
    }

    /// The new code in an amendment (TA): columns 73 to 79. Returns `None` if these are blank or
    /// the record isn't an amendment.
    pub fn new_code(&self) -> Option<Tiploc>
        ensures { result ≡ new_code_of (kind_of self.now) self.now }
    {
        if is_amendment(self.line) {
            Tiploc::from_field(self.line.field(73))
        } else {
            None
        }
    }
}
