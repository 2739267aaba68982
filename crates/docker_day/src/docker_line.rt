//! Lines of a docker, and their order.
ghost use Rattle.std.specs.Prelude.{◌≡◌};
ghost use Rattle.std.specs.Ordering.{as_partial_cmp, eq_by_cmp};
ghost use Rattle.std.specs.Cmp.{partial_equiv_from_equiv, eq_by_cmp_equiv, partial_order_from_total};
ghost use Rattle.std.proofs.Common.{refl};
ghost use Rattle.docker_model.specs.file.Change.{ScheduleKey};
ghost use Rattle.docker_model.specs.docker.DockerLine.{docker_line_cmp};
ghost use Rattle.docker_model.specs.docker.DockerLine as lines;
ghost use Rattle.cif_laws.proofs.orders.Orders.{docker_line_total};
ghost use Rattle.cif_line.specs.Letter.{stp_letter};
ghost use Rattle.train_choice.specs.Meaning.{occasion_meant};
ghost use Rattle.docker_day.specs.Details.{detail_meant};
ghost use Rattle.train_choice.specs.EventWalk.{occurrence_meant};
ghost use Rattle.docker_day.specs.Lines.{line_at_event, line_of_link, cmp_at_one_time, cmp_at_one_event, cmp_of_one_train};

use crate::detail::Detail;
use crate::location::{Location, suffix_in};
use cif_line::{Day, Stp, Time, Uid};
use std::cmp::Ordering;
use std::marker::Model;
use train_choice::{LinkView, Occasion, Occurrence, ScheduleView};

/// A line of a docker: an event of a train, or an association of the train with another train.
/// Lines are ordered by the time, the occasion, the UID, the start day, the number of the event,
/// and the UID of the associated train.
#[derive(Debug, Drop)]
pub struct DockerLine<'a> {
    time: Time,
    occasion: Occasion,
    identity: &'a [u8; 4],
    uid: Uid,
    stp: Stp,
    suffix: u8,
    platform: &'a [u8; 3],
    track: &'a [u8; 3],
    path: &'a [u8; 3],
    public_time: &'a [u8; 4],
    start: Day,
    number: u64,
    detail: Detail,
}

impl<'a> Model for DockerLine<'a> {
    ghost Value = { lines.DockerLine };

    ghost view = { λ line. record {
      time = line.time;
      occasion = occasion_meant line.occasion;
      identity = line.identity.now;
      uid = line.uid;
      indicator = stp_letter line.stp;
      suffix = line.suffix;
      platform = line.platform.now;
      track = line.track.now;
      path = line.path.now;
      public_time = line.public_time.now;
      start = line.start;
      number = line.number;
      detail = detail_meant line.detail;
    } };
}

impl<'a> DockerLine<'a> {
    /// The line of an event. `start` is the day on which the train starts, and `detail` fills the
    /// last columns.
    #[tactic(auto, using(crate::proofs::Shown::public_is))]
    pub(crate) fn of_event(
        train: &ScheduleView<'a>,
        start: Day,
        event: Occurrence<'a>,
        detail: Detail,
    ) -> DockerLine<'a>
        ensures { result ≡ line_at_event train.now.key start (detail_meant detail)
            (occurrence_meant event.entry) }
    {
        let key = train.key();
        let location = Location::of(event.line);
        DockerLine {
            time: event.time,
            occasion: event.occasion,
            identity: event.identity,
            uid: key.uid,
            stp: key.stp,
            suffix: suffix_in(event.line),
            platform: location.platform,
            track: location.track,
            path: location.path,
            public_time: location.public_time(event.occasion),
            start,
            number: event.number,
            detail,
        }
    }

    /// The line of an association at an event of its base train. `start` is the day on which the
    /// base train starts, and `identity` is the associated train's identity.
    pub(crate) fn of_link(
        link: &LinkView<'a>,
        occasion: Occasion,
        start: Day,
        event: &Occurrence<'a>,
        identity: [u8; 4],
    ) -> DockerLine<'a>
        ensures { (base : ScheduleKey) → base.uid ≡ link.now.key.base
            → result ≡ line_of_link (occasion_meant occasion) link.now.key base start
            (occurrence_meant event.now) identity }
    {
        DockerLine {
            time: event.time,
            occasion,
            identity: event.identity,
            uid: link.key().base,
            stp: link.key().stp,
            suffix: suffix_in(event.line),
            platform: Location::of(event.line).platform,
            track: b"   ",
            path: b"   ",
            public_time: b"    ",
            start,
            number: event.number,
            detail: Detail::Partner {
                uid: link.key().associated,
                identity,
            },
        }
    }

    /// The scheduled time.
    pub fn time(&self) -> Time
        ensures { result ≡ self.now.time }
    {
        self.time
    }

    /// The kind of the event or of the association.
    pub fn occasion(&self) -> Occasion
        ensures { occasion_meant result ≡ self.now.occasion }
    {
        self.occasion
    }

    /// The train identity at the location.
    pub fn identity(&self) -> &'a [u8; 4]
        ensures { result.now ≡ self.now.identity }
    {
        self.identity
    }

    /// The UID of the train. The line of an association has the base train's UID.
    pub fn uid(&self) -> Uid
        ensures { result ≡ self.now.uid }
    {
        self.uid
    }

    /// The STP indicator of the schedule. The line of an association has the association's STP
    /// indicator.
    pub fn stp(&self) -> Stp
        ensures { stp_letter result ≡ self.now.indicator }
    {
        self.stp
    }

    /// The suffix of the location, which distinguishes several calls at one timing point.
    pub fn suffix(&self) -> u8
        ensures { result ≡ self.now.suffix }
    {
        self.suffix
    }

    /// The platform.
    pub fn platform(&self) -> &'a [u8; 3]
        ensures { result.now ≡ self.now.platform }
    {
        self.platform
    }

    /// The line on which the train leaves or passes. The field consists of spaces at a terminus and
    /// in the line of an association.
    pub fn track(&self) -> &'a [u8; 3]
        ensures { result.now ≡ self.now.track }
    {
        self.track
    }

    /// The path by which the train arrives or passes. The field consists of spaces at an origin and
    /// in the line of an association.
    pub fn path(&self) -> &'a [u8; 3]
        ensures { result.now ≡ self.now.path }
    {
        self.path
    }

    /// The public time of the arrival or departure as HHMM, or spaces if there is no public time.
    pub fn public_time(&self) -> &'a [u8; 4]
        ensures { result.now ≡ self.now.public_time }
    {
        self.public_time
    }

    /// The day on which the train starts.
    pub fn start(&self) -> Day
        ensures { result ≡ self.now.start }
    {
        self.start
    }

    /// The number of the event among the schedule's events, counted from 1.
    pub fn number(&self) -> u64
        ensures { result ≡ self.now.number }
    {
        self.number
    }

    /// The origin and the destination of the train. The line of an association has the associated
    /// train instead.
    pub fn detail(&self) -> Detail
        ensures { detail_meant result ≡ self.now.detail }
    {
        self.detail
    }
}

impl DockerLine<'_> {
    /// The order of lines with the same time.
    fn cmp_at_one_time(&self, other: &DockerLine<'_>) -> Ordering
        ensures { result ≡ cmp_at_one_time self.now other.now }
    {
        match self.occasion.rank().cmp(&other.occasion.rank()) {
            Ordering::Equal => self.cmp_at_one_event(other),
            order => order,
        }
    }

    /// The order of lines with the same time and occasion.
    fn cmp_at_one_event(&self, other: &DockerLine<'_>) -> Ordering
        ensures { result ≡ cmp_at_one_event self.now other.now }
    {
        match self.uid.bytes().cmp(other.uid.bytes()) {
            Ordering::Equal => self.cmp_of_one_train(other),
            order => order,
        }
    }

    /// The order of lines with the same time, occasion and UID.
    fn cmp_of_one_train(&self, other: &DockerLine<'_>) -> Ordering
        ensures { result ≡ cmp_of_one_train self.now other.now }
    {
        let by_start = self.start.number().cmp(&other.start.number());
        let by_number = self.number.cmp(&other.number);
        let by_partner = self
            .detail
            .associated_uid()
            .cmp(other.detail.associated_uid());
        by_start.then(by_number).then(by_partner)
    }
}

impl PartialEq for DockerLine<'_> {
    ghost eq = { eq_by_cmp docker_line_cmp };

    ghost laws = { partial_equiv_from_equiv (eq_by_cmp_equiv docker_line_total) };

    fn eq(&self, other: &Self) -> bool {
        self.cmp(other).is_eq()
    }
}

impl Eq for DockerLine<'_> {
    ghost laws = { eq_by_cmp_equiv docker_line_total };
}

impl PartialOrd for DockerLine<'_> {
    ghost partial_cmp = { as_partial_cmp docker_line_cmp };

    ghost laws = { partial_order_from_total docker_line_total };

    fn partial_cmp(&self, other: &Self) -> Option<Ordering> {
        Some(self.cmp(other))
    }
}

impl Ord for DockerLine<'_> {
    ghost cmp = { docker_line_cmp };

    ghost total = { docker_line_total };

    ghost matches_partial_cmp = { λ a b. refl };

    ghost matches_eq = { λ a b. refl };

    fn cmp(&self, other: &Self) -> Ordering {
        match self.time.half_minutes().cmp(&other.time.half_minutes()) {
            Ordering::Equal => self.cmp_at_one_time(other),
            order => order,
        }
    }
}
