//! Chooses the schedule that a train follows on a day, and the association that counts in a group.
//! Also lists the events of a schedule.
#![tactic(auto)]

mod choice;
mod day_links;
mod day_trains;
mod days_run;
mod ends;
mod events;
mod identities;
mod link_group;
mod link_view;
mod midnights;
mod occasion;
mod ranked;
mod recent_runs;
mod rows;
mod schedule_view;
mod times;
mod uid_search;
mod uid_train;
mod up_to;
mod walk;
mod walks;

pub use choice::{chosen, is_cancellation, train_on};
pub use day_links::DayLinks;
pub use day_trains::DayTrains;
pub use days_run::runs;
pub use ends::ends_of;
pub use events::Events;
pub use identities::Identities;
pub use link_view::LinkView;
pub use midnights::{falls, passes_midnight};
pub use occasion::Occasion;
pub use recent_runs::{RecentRuns, day_back};
pub use rows::{association_of, schedule_of};
pub use schedule_view::ScheduleView;
pub use times::event_count;
pub use walk::Occurrence;
pub use walks::{associations_at, schedules_at};
