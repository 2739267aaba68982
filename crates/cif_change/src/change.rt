//! Changes, the bodies that they put, and the order of bodies and acts.
ghost use Rattle.std.specs.Prelude.{◌≡◌, ◌↔◌, ◌+◌, ◌-◌, ◌<◌, ◌≤◌, IsTrue};
ghost use Rattle.std.specs.Ordering.{on, as_partial_cmp, eq_by_cmp};
ghost use Rattle.std.specs.Cmp.{partial_equiv_from_equiv, on_equiv, on_total, eq_by_cmp_equiv, partial_order_from_total};
ghost use Rattle.std.proofs.Common.{refl};
ghost use Rattle.docker_model.specs.records.Record.{columns};
ghost use Rattle.docker_model.specs.state.Op.{body_tag, body_bytes, body_end, readable_end, body_cmp, op_cmp};
ghost use Rattle.docker_model.specs.state.Order.{bytes_cmp};
ghost use Rattle.cif_laws.proofs.orders.Orders.{body_total, op_total};
ghost use Rattle.cif_change.specs.Joined.{joined_bytes};
ghost use Rattle.cif_change.specs.Meaning.{body_meant};
ghost use Rattle.cif_change.specs.Acts.{act_op};

use crate::joined::Joined;
use crate::key::Key;
use crate::lines::Lines;
use crate::same::{are_same_lines, compare_lines, is_same_line};
use cif_line::{Line, NO_END, Until};
use std::cmp::Ordering;

/// The body that a change puts under its key. Bodies are ordered by their end number, then by the
/// bytes of their joined lines, and then by the kind of key.
#[derive(Debug, Drop)]
pub enum Body {
    /// A TIPLOC's details: columns 10 to 72 of its record.
    Tiploc([u8; 63]),
    /// An association's record, with its transaction set to `N`.
    Assoc(Line),
    /// A schedule's records, with the transaction of the first set to `N`.
    Schedule(Lines),
}

impl Body {
    /// The day number of the body's last day, counted from 0 for 1960-01-01. It is 65535 for a
    /// TIPLOC, for an end date that means no end, and for an end date that can't be read.
    pub fn end_number(&self) -> u16
        ensures { result ≡ body_end (body_meant self.now) }
    {
        match self {
            Body::Tiploc(_) => NO_END,
            Body::Assoc(line) => end_in(six_from(line, 22)),
            Body::Schedule(lines) => match lines.as_slice().first() {
                Some(line) => end_in(six_from(line, 16)),
                None => NO_END,
            },
        }
    }

    /// A number for the kind of body: 1 for a TIPLOC, 2 for an association, 3 for a schedule. A key
    /// of the same kind has this number as its tag.
    fn tag(&self) -> u8
        ensures { result ≡ body_tag (body_meant self.now) }
    {
        match self {
            Body::Tiploc(_) => 1,
            Body::Assoc(_) => 2,
            Body::Schedule(_) => 3,
        }
    }

    /// The bytes of the body. If the body has several lines, the bytes of the lines are joined.
    fn bytes(&self) -> Joined<'_>
        ensures { joined_bytes result ≡ body_bytes (body_meant self.now) }
    {
        match self {
            Body::Tiploc(bytes) => Joined::new(bytes, &[]),
            Body::Assoc(line) => Joined::new(line.bytes(), &[]),
            Body::Schedule(lines) => Joined::new(&[], lines.as_slice()),
        }
    }

    /// Compares two bodies by their bytes only.
    fn cmp_bytes(&self, other: &Body) -> Ordering
        ensures { result ≡
            bytes_cmp (body_bytes (body_meant self.now)) (body_bytes (body_meant other.now)) }
    {
        match (self, other) {
            (Body::Schedule(own), Body::Schedule(lines)) => {
                compare_lines(own.as_slice(), lines.as_slice())
            }
            _ => self.bytes().compare(other.bytes()),
        }
    }

    /// Whether two bodies are equal: they are of one kind and have the same bytes.
    fn is_same(&self, other: &Body) -> bool
        ensures { IsTrue result ↔ (body_meant self.now ≡ body_meant other.now) }
    {
        match (self, other) {
            (Body::Tiploc(own), Body::Tiploc(bytes)) => own == bytes,
            (Body::Assoc(own), Body::Assoc(line)) => is_same_line(own, line),
            (Body::Schedule(own), Body::Schedule(lines)) => {
                are_same_lines(own.as_slice(), lines.as_slice())
            }
            _ => false,
        }
    }
}

/// The six columns of a line that begin at column `first`.
fn six_from(line: &Line, first: usize) -> &[u8; 6]
    requires from { 0 < first }
    requires within { first + 5 ≤ 80 }
    ensures { result.now ≡ columns first (first - 1 + 6) line.now }
{
    match line.bytes()[first - 1..first - 1 + 6].first_chunk() {
        Some(field) => field,
        None => unreachable!(),
    }
}

/// The end number of an end date's field: a day number, or 65535 if there is no end or the field
/// can't be read.
fn end_in(field: &[u8; 6]) -> u16
    ensures { result ≡ readable_end field.now }
{
    match Until::from_field(field) {
        Some(end) => end.number(),
        None => NO_END,
    }
}

impl PartialEq for Body {
    ghost eq = { on body_meant (eq_by_cmp body_cmp) };

    ghost laws = { partial_equiv_from_equiv (on_equiv body_meant (eq_by_cmp_equiv body_total)) };

    fn eq(&self, other: &Body) -> bool {
        self.cmp(other).is_eq()
    }
}

impl Eq for Body {
    ghost laws = { on_equiv body_meant (eq_by_cmp_equiv body_total) };
}

impl PartialOrd for Body {
    ghost partial_cmp = { as_partial_cmp (on body_meant body_cmp) };

    ghost laws = { partial_order_from_total (on_total body_meant body_total) };

    fn partial_cmp(&self, other: &Body) -> Option<Ordering> {
        Some(self.cmp(other))
    }
}

impl Ord for Body {
    ghost cmp = { on body_meant body_cmp };

    ghost total = { on_total body_meant body_total };

    ghost matches_partial_cmp = { λ a b. refl };

    ghost matches_eq = { λ a b. refl };

    fn cmp(&self, other: &Body) -> Ordering {
        // Most bodies that are compared are equal. In that case no end date has to be read.
        if self.is_same(other) {
            return Ordering::Equal;
        }
        self.end_number()
            .cmp(&other.end_number())
            .then_with(|| self.cmp_bytes(other))
            .then_with(|| self.tag().cmp(&other.tag()))
    }
}

/// What a change does to its key. In the order of acts a deletion comes before any put.
#[derive(Debug, Drop)]
pub enum Act {
    /// Deletes the key.
    Delete,
    /// Puts this body under the key, whether or not the key existed before.
    Put(Body),
}

impl PartialEq for Act {
    ghost eq = { on act_op (eq_by_cmp op_cmp) };

    ghost laws = { partial_equiv_from_equiv (on_equiv act_op (eq_by_cmp_equiv op_total)) };

    fn eq(&self, other: &Act) -> bool {
        self.cmp(other).is_eq()
    }
}

impl Eq for Act {
    ghost laws = { on_equiv act_op (eq_by_cmp_equiv op_total) };
}

impl PartialOrd for Act {
    ghost partial_cmp = { as_partial_cmp (on act_op op_cmp) };

    ghost laws = { partial_order_from_total (on_total act_op op_total) };

    fn partial_cmp(&self, other: &Act) -> Option<Ordering> {
        Some(self.cmp(other))
    }
}

impl Ord for Act {
    ghost cmp = { on act_op op_cmp };

    ghost total = { on_total act_op op_total };

    ghost matches_partial_cmp = { λ a b. refl };

    ghost matches_eq = { λ a b. refl };

    fn cmp(&self, other: &Act) -> Ordering {
        match (self, other) {
            (Act::Delete, Act::Delete) => Ordering::Equal,
            (Act::Delete, Act::Put(_)) => Ordering::Less,
            (Act::Put(_), Act::Delete) => Ordering::Greater,
            (Act::Put(a), Act::Put(b)) => a.cmp(b),
        }
    }
}

/// A change: the effect of one record of an extract, or of all records of a schedule, on one key.
#[derive(PartialEq, Eq, Debug, Drop)]
pub struct Change {
    /// The number of the record that makes the change. The records of a file are numbered from 1.
    pub number: u32,
    /// The key that is changed.
    pub key: Key,
    /// What is done to the key.
    pub act: Act,
}
