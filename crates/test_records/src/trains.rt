//! Lines that are printed for a train on a day: headings and the last line, each of 80 bytes.

/// The heading for C10001 on 10 June 2024. On this day the train runs according to its permanent
/// schedule, record 2 of the update of 9 June.
pub const RUNS_ON_10_JUNE: &[u8] =
    b"TRAIN  C10001  2024-06-10 P RUNS      2024-06-09 2100 DFROC1A          2        ";

/// The heading for 15 June, on which no schedule of C10001 runs.
pub const NONE_ON_15_JUNE: &[u8] =
    b"TRAIN  C10001  2024-06-15   NONE                                                ";

/// The heading for 17 June, on which no schedule of C10001 runs.
pub const NONE_ON_17_JUNE: &[u8] =
    b"TRAIN  C10001  2024-06-17   NONE                                                ";

/// The last line of each train's text.
pub const END: &[u8] =
    b"END                                                                             ";
