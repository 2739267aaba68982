//! A live association.
ghost use Rattle.std.specs.Prelude.{◌≡◌, false};
ghost use Rattle.docker_model.specs.records.Record.{association, HasKind};
ghost use Rattle.docker_model.specs.records.Field.{HasGoodFields, is_deletion};
ghost use Rattle.docker_model.specs.state.State.{IsAssociationOf};
ghost use Rattle.docker_model.specs.docker.Choice.{association_runs};
ghost use Rattle.docker_laws.specs.LiveRows.{Link};
ghost use Rattle.cif_change.specs.Meaning.{association_key_meant};

use crate::days_run::association_runs;
use crate::ranked::Ranked;
use cif_change::AssocKey;
use cif_line::{Assoc, Day, Line, Stp, assoc};
use std::marker::Model;

/// A live association: its key and its record.
#[derive(Debug, Drop)]
pub struct LinkView<'a> {
    key: &'a AssocKey,
    line: &'a Line,
}

impl<'a> Model for LinkView<'a> {
    ghost Value = { Link };

    ghost view = { λ view. record {
      key = association_key_meant view.key.now;
      line = view.line.now;
    } };

    ghost invariant = { λ view. IsAssociationOf
        (association_key_meant view.key.now) view.line.now };
}

#[tactic(auto, using(crate::proofs::KeptLines::kept_line))]
impl<'a> LinkView<'a> {
    /// The association with this key and this record. The record has to fit the key.
    pub(crate) fn of(key: &'a AssocKey, line: &'a Line) -> LinkView<'a>
        requires { IsAssociationOf (association_key_meant key.now) line.now }
        ensures { result ≡ record {
          key = association_key_meant key.entry.now;
          line = line.entry.now;
        } }
    {
        LinkView { key, line }
    }

    /// The association's key.
    pub fn key(&self) -> &'a AssocKey
        ensures { association_key_meant result.now ≡ self.now.key }
    {
        self.key
    }

    /// The association's record.
    pub(crate) fn line(&self) -> &'a Line
        ensures line { result.now ≡ self.now.line }
        ensures kind { HasKind association result.now }
        ensures good { HasGoodFields result.now }
        ensures no_deletion { is_deletion result.now ≡ false }
    {
        self.line
    }

    /// Whether the association runs on a start day of its base train.
    pub fn runs_on(&self, start: Day) -> bool
        ensures { result ≡ association_runs self.now.line start }
    {
        association_runs(self.line(), start)
    }

    /// A typed view of the association's record.
    pub fn record(&self) -> Assoc<'a>
        ensures { result ≡ self.now.line }
    {
        match assoc(self.line()) {
            Ok(view) => view,
            Err(_) => unreachable!(),
        }
    }
}

impl<'a> Ranked for LinkView<'a> {
    ghost rank = { λ link. (link.key.indicator, link.key.start) };

    fn rank(&self) -> (Stp, Day) {
        (self.key.stp, self.key.start)
    }
}
