//! The records, files, states and printed lines that the test crates share.
#![tactic(auto)]

mod associations;
pub mod dockers;
pub mod files;
mod headers;
pub mod ledgers;
mod locations;
mod schedules;
pub mod states;
mod texts;
mod tiplocs;
pub mod trains;

pub use associations::{
    AA_BLANK, AA_DIVIDE, AA_ENDS_1960, AA_ENDS_2059, AA_JOIN, AA_LAST, AA_N, AA_NO_END,
    AA_NO_END_DIVIDE, AA_OTHER, AA_P, AA_S, AA_X,
};
pub use headers::{
    HD, HD_5A, HD_7B, HD_8A, HD_9B, HD_9C, HD_10B, HD_10B_0605, HD_FULL, HD_X, LN, ZZ,
};
pub use locations::{
    CR_5E51, LI_0000, LI_0005, LI_0010, LI_1010, LI_1040, LI_TIMELESS, LO, LO_0850, LO_0905,
    LO_0910, LO_0915, LO_0920, LO_0940, LO_1000, LO_1000_PLAIN, LO_1100, LO_2300, LO_2355, LO_2400,
    LO_COLWELL_0010, LO_COLWELL_1045, LT, LT_0006_PLAIN, LT_0020, LT_0935, LT_1030, LT_1100_PLAIN,
    LT_1130, LT_ASHFELD_0100, LT_COLWELL_2350, LT_DUNMERE_1100,
};
pub use schedules::{
    BS, BS_C10002, BS_C10002_WEEK, BS_C10003, BS_C10003_PLAIN, BS_C30001, BS_C30002,
    BS_C30002_DELETED, BS_C40001, BS_C40001_CANCELLED, BS_C40001_LAST, BS_C40002,
    BS_C40002_CANCELLED, BS_CANCELLED, BS_CANCELLED_DELETED, BS_DELETED, BS_DELETED_PLAIN, BS_JULY,
    BS_LONGER, BS_NEW, BS_NIGHT, BS_NO_DAY, BS_NO_END, BS_OVERLAY, BS_OVERLAY_WEEKDAYS, BS_REVISED,
    BS_REVISED_SHORTER, BS_SHORTER, BS_SUNDAY, BS_WEEK, BS_WEEKEND,
};
pub use texts::text;
pub use tiplocs::{BODY_OF_TA, BODY_OF_TI, TA, TA_SAME, TI, TI_BLANK, TI_TAB};
