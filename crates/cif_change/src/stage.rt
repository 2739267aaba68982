//! The stages of reading a schedule.
ghost use Rattle.std.specs.Prelude.{◌≡◌, option_map, Some, IsSome, true};
ghost use Rattle.docker_model.specs.file.File.{follows_basic};
ghost use Rattle.cif_laws.specs.ScheduleStage.{stage_after};
ghost use Rattle.cif_line.specs.Kind.{meaning};
ghost use Rattle.cif_change.specs.JourneyRead.{stage_meant, may_end_by, is_over_by};

use cif_line::Kind;

/// Which record of a schedule the reader has read last. This record determines which kinds of
/// record may come next.
#[derive(Clone, Copy, PartialEq, Eq, Debug)]
pub(crate) enum ScheduleStage {
    /// The basic schedule (BS).
    AfterBasic,
    /// The extra details (BX).
    AfterDetails,
    /// The origin (LO) or a later record of the journey, but not the terminus.
    InJourney,
    /// The terminus (LT), the last record of a schedule.
    AfterJourney,
}

impl ScheduleStage {
    /// The stage after a record of this kind. Returns `None` if a record of this kind can't come
    /// next. Most records of an extract are intermediate locations, so they are tested first. For
    /// them the processor needn't predict a jump into a table of stages or kinds.
    pub(crate) fn after(self, kind: Kind) -> Option<ScheduleStage>
        ensures stage { option_map stage_meant result ≡
            stage_after (stage_meant self) (Some (meaning kind)) }
        ensures follows { IsSome result → follows_basic (Some (meaning kind)) ≡ true }
    {
        match (self, kind) {
            (ScheduleStage::InJourney, Kind::IntermediateLocation) => Some(self),
            _ => self.after_any(kind),
        }
    }

    /// The stage after a record of any kind. Returns `None` if a record of this kind can't come
    /// next.
    #[cold]
    #[inline(never)]
    fn after_any(self, kind: Kind) -> Option<ScheduleStage>
        ensures stage { option_map stage_meant result ≡
            stage_after (stage_meant self) (Some (meaning kind)) }
        ensures follows { IsSome result → follows_basic (Some (meaning kind)) ≡ true }
    {
        match (self, kind) {
            (ScheduleStage::AfterBasic, Kind::ExtraDetails) => Some(ScheduleStage::AfterDetails),
            (ScheduleStage::AfterBasic | ScheduleStage::AfterDetails, Kind::OriginLocation) => Some(
                ScheduleStage::InJourney,
            ),
            (ScheduleStage::InJourney, Kind::IntermediateLocation | Kind::ChangeEnRoute) => {
                Some(ScheduleStage::InJourney)
            }
            (ScheduleStage::InJourney, Kind::TerminatingLocation) => Some(
                ScheduleStage::AfterJourney,
            ),
            _ => None,
        }
    }

    /// Whether a schedule may end at this stage. `lacking` says whether the schedule may end
    /// without a journey.
    pub(crate) fn may_end(self, lacking: bool) -> bool
        ensures { result ≡ may_end_by (Some (stage_meant self)) lacking }
    {
        match self {
            ScheduleStage::AfterBasic => lacking,
            ScheduleStage::AfterDetails => lacking,
            ScheduleStage::InJourney => false,
            ScheduleStage::AfterJourney => true,
        }
    }

    /// Whether the terminus has been read, so that the journey is complete.
    pub(crate) fn is_over(self) -> bool
        ensures { result ≡ is_over_by (Some (stage_meant self)) }
    {
        match self {
            ScheduleStage::AfterBasic => false,
            ScheduleStage::AfterDetails => false,
            ScheduleStage::InJourney => false,
            ScheduleStage::AfterJourney => true,
        }
    }
}
