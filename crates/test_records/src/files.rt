//! The files of the worked examples, each given as the list of its records.

use crate::associations::{
    AA_BLANK, AA_DIVIDE, AA_DIVIDE_CANCELLED, AA_JOIN, AA_LAST, AA_N, AA_OTHER, AA_P, AA_S, AA_X,
};
use crate::headers::{HD, HD_5A, HD_7B, HD_8A, HD_9B, HD_9C, HD_10B, HD_EARLY, HD_FULL, ZZ};
use crate::locations::{
    CR_5E51, LI_0000, LI_0010, LI_1010, LI_1040, LI_COLWELL_0005, LI_COLWELL_1210, LO, LO_0850,
    LO_0905, LO_0910, LO_0915, LO_1000, LO_1000_PLAIN, LO_1100, LO_1200, LO_2300, LO_2355, LO_2400,
    LO_COLWELL_0010, LO_COLWELL_1045, LO_HALF, LT, LT_0001, LT_0005, LT_0006, LT_0020, LT_0935,
    LT_1030, LT_1100_PLAIN, LT_1130, LT_1230, LT_ASHFELD_0100, LT_ASHFELD_0900, LT_COLWELL_2350,
    LT_DUNMERE_1100,
};
use crate::schedules::{
    BS, BS_C10002, BS_C10003, BS_C30001, BS_C30002, BS_C40001, BS_C40001_CANCELLED, BS_C40001_LAST,
    BS_C40002, BS_C40002_CANCELLED, BS_C50001, BS_CANCELLED, BS_DELETED, BS_FRIDAY, BS_JULY,
    BS_LONGER, BS_NIGHT, BS_OVERLAY, BS_REVISED, BS_WEDNESDAYS, BS_WEEK, BS_WEEKEND,
};
use crate::tiplocs::{TA, TA_SAME, TI};

/// The records of a file, in order.
pub type File = &'static [&'static [u8]];

/// A file that adds a train and then changes its schedule, so that it runs on Friday 14 June only.
/// As a result, the docker of 10 June doesn't list the train.
pub const PUT_AND_REVISED: File = &[HD, BS, LO, LT, BS_FRIDAY, LO_0905, LT_0935, ZZ];

/// A file that changes a train's schedule so that it runs on Friday 14 June only, and then adds a
/// schedule for all weekdays under the same key.
pub const REVISED_AND_PUT: File = &[HD, BS_FRIDAY, LO_0905, LT_0935, BS, LO, LT, ZZ];

/// A file that adds a train, deletes it and adds it again.
pub const PUT_AGAIN: File = &[HD, BS, LO, LT, BS_DELETED, BS, LO_0905, LT_0935, ZZ];

/// A file that adds a train and then deletes it.
pub const PUT_AND_DELETED: File = &[HD, BS, LO, LT, BS_DELETED, ZZ];

/// A file with one train from Ashfeld to Brayton, on weekdays from 10 to 14 June 2024.
pub const MORNING: File = &[HD, BS, LO, LT, ZZ];

/// The file of the morning train, without its trailer.
pub const OPEN: File = &[HD, BS, LO, LT];

/// A file with the morning train, which is added by a record with the transaction `R`.
pub const REVISED: File = &[HD, BS_REVISED, LO, LT, ZZ];

/// A file with a train from Ashfeld to Brayton that leaves in the evening.
pub const EVENING: File = &[HD, BS, LO_2355, LT_0005, ZZ];

/// A full extract with the morning train.
pub const FULL: File = &[HD_FULL, BS, LO, LT, ZZ];

/// A file of 10 June that makes the morning train leave five minutes later than in `MORNING`.
pub const REVISION: File = &[HD_10B, BS_REVISED, LO_0905, LT_0935, ZZ];

/// An update of 5 June: it deletes C10003 and adds C10001.
pub const FIFTH: File = &[HD_5A, BS_C10003, BS, LO, LT, ZZ];

/// A full extract of 7 June with C10002 as its only train.
pub const SEVENTH: File = &[HD_7B, BS_C10002, LO_1000, LT_1030, ZZ];

/// An update of 9 June, in which C10001 runs two hours later than in `MORNING`.
pub const NINTH: File = &[HD_9C, BS, LO_1100, LT_1130, ZZ];

/// The update of 9 June, without its trailer.
pub const NINTH_OPEN: File = &[HD_9C, BS, LO_1100, LT_1130];

/// A file that deletes C10001.
pub const DELETION: File = &[HD_9B, BS_DELETED, ZZ];

/// A file of 8 June that adds C10001. `DELETION` deletes this train on 9 June.
pub const EIGHTH: File = &[HD_8A, BS, LO, LT, ZZ];

/// A file with a new timing point.
pub const PLACE: File = &[HD, TI, ZZ];

/// A file of 10 June that gives the timing point of `PLACE` a new code.
pub const RENAMED: File = &[HD_10B, TA, ZZ];

/// A file with a train, its overlay on two days, its cancellation on a third day, and then these
/// further records.
macro_rules! week {
    ($($more:expr),*) => {
        &[
            HD,
            BS_WEEK,
            LO,
            LT,
            BS_OVERLAY,
            LO_0915,
            LT,
            BS_CANCELLED,
            $($more,)*
            ZZ,
        ]
    };
}

/// A file with a train on each day from 10 to 16 June.
pub const EACH_DAY: File = &[HD, BS_WEEK, LO, LT, ZZ];

/// A file with a train that has an overlay on two days and a cancellation on a third day.
pub const WEEK: File = week!();

/// A file with a train that has an overlay, a cancellation, and another schedule for the weekend.
pub const WEEKEND: File = week!(BS_WEEKEND, LO_0910, LT);

/// A file with a train that runs past midnight, calls at Colwell and passes Dunmere.
pub const NIGHT: File = &[HD, BS_NIGHT, LO_2355, LI_0000, LI_0010, LT_0020, ZZ];

/// A file with a train that runs past two midnights.
pub const TWO_NIGHTS: File = &[HD, BS_NIGHT, LO_2355, LI_0010, LI_COLWELL_0005, LT_0006, ZZ];

/// A file with a train that runs past three midnights, which no schedule may do.
pub const THREE_NIGHTS: File = &[HD, BS_NIGHT, LO_2355, LI_0010, LI_COLWELL_0005, LT_0001, ZZ];

/// A file with two trains, and then these further records. The first train calls at Colwell twice.
/// At the second of these calls, the second train divides from the first.
macro_rules! division {
    ($($more:expr),*) => {
        &[
            HD,
            BS_C30001,
            LO_1000_PLAIN,
            LI_1010,
            LI_1040,
            LT_1100_PLAIN,
            BS_C30002,
            LO_COLWELL_1045,
            LT_DUNMERE_1100,
            AA_DIVIDE,
            $($more,)*
            ZZ,
        ]
    };
}

/// A file with two trains. The first train calls at Colwell twice. At the second of these calls,
/// the second train divides from the first.
pub const DIVISION_FILE: File = division!();

/// A file with the two trains of `DIVISION_FILE`. The division is cancelled.
pub const DIVISION_CANCELLED: File = division!(AA_DIVIDE_CANCELLED);

/// A file with a train whose identity changes on the way.
pub const IDENTITY: File = &[
    HD,
    BS_C50001,
    LO_1200,
    CR_5E51,
    LI_COLWELL_1210,
    LT_1230,
    ZZ,
];

/// A file in which the morning train runs until a later day than in `MORNING`, and leaves ten
/// minutes earlier.
pub const LONGER: File = &[HD, BS_LONGER, LO_0850, LT, ZZ];

/// A file in which the morning train leaves five minutes later than in `MORNING`.
pub const LATER: File = &[HD, BS, LO_0905, LT, ZZ];

/// A file that deletes the morning train. It has the same header as the morning train's file.
pub const DELETED: File = &[HD, BS_DELETED, ZZ];

/// A file of 8 June in which the morning train runs until the end of July.
pub const JULY: File = &[HD_8A, BS_JULY, LO, LT, ZZ];

/// A file with a train that leaves Ashfeld half a minute past 09:00, without a public time.
pub const HALF: File = &[HD, BS, LO_HALF, LT, ZZ];

/// A file with a train from Ashfeld to Ashfeld that arrives at the time at which it leaves.
pub const ROUND: File = &[HD, BS, LO, LT_ASHFELD_0900, ZZ];

/// A file with a train to Colwell, a train that leaves Colwell after midnight, and then these
/// further records. `$first` is the basic schedule of the first train.
macro_rules! two_trains {
    ($first:expr, $($more:expr),*) => {
        &[
            HD,
            $first,
            LO_2300,
            LT_COLWELL_2350,
            BS_C40002,
            LO_COLWELL_0010,
            LT_ASHFELD_0100,
            $($more,)*
            ZZ,
        ]
    };
}

/// A file with a train to Colwell and its next working, which starts on the next day.
pub const NEXT_DAY: File = two_trains!(BS_C40001, AA_N);

/// A file with a train to Colwell and its next working, which starts on the same day.
pub const SAME_DAY: File = two_trains!(BS_C40001, AA_S);

/// A file with a train to Colwell and its next working. The association has a space as its date
/// indicator.
pub const NO_INDICATOR: File = two_trains!(BS_C40001, AA_BLANK);

/// A file with a train to Colwell and its next working, which starts a day earlier than the train.
pub const DAY_BEFORE: File = two_trains!(BS_C40001, AA_P);

/// A file with a train to Colwell and its next working. The association has an unknown date
/// indicator.
pub const UNKNOWN_INDICATOR: File = two_trains!(BS_C40001, AA_X);

/// A file with a train to Colwell and a second train. An association with an unknown category links
/// these two trains.
pub const UNKNOWN_CATEGORY: File = two_trains!(BS_C40001, AA_OTHER);

/// A file with a train to Colwell and its next working, on the last day of the calendar.
pub const LAST_DAY: File = two_trains!(BS_C40001_LAST, AA_LAST);

/// A file with a train to Colwell and its next working. The next working is cancelled.
pub const PARTNER_CANCELLED: File = two_trains!(BS_C40001, AA_N, BS_C40002_CANCELLED);

/// A file with a train to Colwell and its next working. The train to Colwell is cancelled.
pub const BASE_CANCELLED: File = two_trains!(BS_C40001, AA_N, BS_C40001_CANCELLED);

/// A file with a deletion of the morning train, followed by an origin whose time isn't a time of
/// day. The reader doesn't check the origin of a deleted schedule.
pub const DELETED_AT_NO_TIME: File = &[HD, BS_DELETED, LO_2400, LT, ZZ];

/// An update from the year 2000 that contains no changes.
pub const EARLY: File = &[HD_EARLY, ZZ];

/// A file with a train that runs on Wednesdays, according to a schedule without a last day.
pub const NO_END: File = &[HD, BS_WEDNESDAYS, LO, LT, ZZ];

/// A file with an amendment of a timing point that leaves its code unchanged.
pub const AMENDED: File = &[HD, TA_SAME, ZZ];

/// A file with an association: C10002 joins C10001 at Ashfeld.
pub const JOIN: File = &[HD, AA_JOIN, ZZ];
