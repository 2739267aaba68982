//! Groups of associations: for a day, at most one association of a group is chosen.
ghost use Rattle.std.specs.Prelude.{◌≡◌};
ghost use Rattle.docker_model.specs.docker.Choice.{Group, group_of};
ghost use Rattle.cif_change.specs.Meaning.{association_key_meant};

use cif_change::AssocKey;
use cif_line::{Tiploc, Uid};
use std::marker::Model;

/// A group of associations: all associations with the same two trains, the same place and the same
/// suffix. For each start day of the base train, at most one association of a group is chosen.
#[derive(Clone, Copy, PartialEq, Eq, PartialOrd, Ord, Debug)]
pub(crate) struct LinkGroup {
    base: Uid,
    associated: Uid,
    location: Tiploc,
    suffix: u8,
}

impl Model for LinkGroup {
    ghost Value = { Group };

    ghost view = { λ group. record {
      base = group.base;
      associated = group.associated;
      location = group.location;
      suffix = group.suffix;
    } };

    ghost inverse = { λ group. record {
      base = group.base;
      associated = group.associated;
      location = group.location;
      suffix = group.suffix;
    } };
}

impl LinkGroup {
    /// The group of the association with this key.
    pub(crate) fn of(key: &AssocKey) -> LinkGroup
        ensures { result ≡ group_of (association_key_meant key.now) }
    {
        LinkGroup {
            base: key.base,
            associated: key.associated,
            location: key.location,
            suffix: key.suffix,
        }
    }

    /// The group of these two trains at a place and a suffix.
    pub(crate) fn at(base: &Uid, associated: &Uid, location: &Tiploc, suffix: u8) -> LinkGroup
        ensures { result ≡ record {
          base = base.now;
          associated = associated.now;
          location = location.now;
          suffix = suffix;
        } }
    {
        LinkGroup {
            base: *base,
            associated: *associated,
            location: *location,
            suffix,
        }
    }
}
