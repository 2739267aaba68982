//! Basic schedules (BS), each with its 80 columns as in a file.

/// A new permanent schedule of C10001, on weekdays from 10 to 14 June 2024.
pub const BS: &[u8] =
    b"BSNC100012406102406141111100 POO1A10                                           P";

/// The revision of C10001's permanent schedule.
pub const BS_REVISED: &[u8] =
    b"BSRC100012406102406141111100 POO1A10                                           P";

/// A revision of C10001's permanent schedule, which now runs on Friday 14 June only.
pub const BS_FRIDAY: &[u8] =
    b"BSRC100012406102406140000100 POO1A10                                           P";

/// The deletion of C10001's permanent schedule.
pub const BS_DELETED: &[u8] =
    b"BSDC10001240610              POO                                               P";

/// The deletion of C10001's permanent schedule, without a train status or train category.
pub const BS_DELETED_PLAIN: &[u8] =
    b"BSDC10001240610                                                                P";

/// A schedule of C10001 whose last day is 21 June.
pub const BS_LONGER: &[u8] =
    b"BSNC100012406102406211111100 POO1A10                                           P";

/// A schedule of C10001 whose last day is 31 July.
pub const BS_JULY: &[u8] =
    b"BSNC100012406102407311111100 POO1A10                                           P";

/// A schedule of C10001 on weekdays, without an end.
pub const BS_NO_END: &[u8] =
    b"BSNC100012406109999991111100 POO1A10                                           P";

/// A schedule of C10001 on Wednesdays, without an end.
pub const BS_WEDNESDAYS: &[u8] =
    b"BSNC100012406109999990010000 POO1A10                                           P";

/// A schedule of C10001 from 29 February 2023, which isn't a date.
pub const BS_NO_DAY: &[u8] =
    b"BSNC100012302292406141111100 POO1A10                                           P";

/// A schedule of C10001 on each day from 10 to 16 June.
pub const BS_WEEK: &[u8] =
    b"BSNC100012406102406161111111 POO1A10                                           P";

/// A schedule of C10001 on each day from 10 to 13 June.
pub const BS_SHORTER: &[u8] =
    b"BSNC100012406102406131111111 POO1A10                                           P";

/// A revision of C10001's schedule, which now runs on each day from 10 to 13 June.
pub const BS_REVISED_SHORTER: &[u8] =
    b"BSRC100012406102406131111111 POO1A10                                           P";

/// An overlay of C10001 on 11 and 13 June.
pub const BS_OVERLAY: &[u8] =
    b"BSNC100012406112406130101000 POO1A10                                           O";

/// A new schedule of C10001, with the STP indicator `N`, on 13 and 15 June.
pub const BS_NEW: &[u8] =
    b"BSNC100012406132406150001010 POO1A10                                           N";

/// A cancellation of C10001 on 14 June. It has no further records.
pub const BS_CANCELLED: &[u8] =
    b"BSNC100012406142406140000100 POO1A10                                           C";

/// The deletion of C10001's cancellation on 14 June, without a train status or train category.
pub const BS_CANCELLED_DELETED: &[u8] =
    b"BSDC10001240614                                                                C";

/// A schedule of C10001 on 15 and 16 June.
pub const BS_WEEKEND: &[u8] =
    b"BSNC100012406152406161111111 POO1A10                                           P";

/// A schedule of C10001 on 16 June.
pub const BS_SUNDAY: &[u8] =
    b"BSNC100012406162406160000001 POO1A10                                           P";

/// A schedule of C10002, on weekdays from 10 to 14 June.
pub const BS_C10002: &[u8] =
    b"BSNC100022406102406141111100 POO1A20                                           P";

/// A schedule of C10002 on each day from 10 to 16 June.
pub const BS_C10002_WEEK: &[u8] =
    b"BSNC100022406102406161111111 POO1A20                                           P";

/// The deletion of a schedule of C10003.
pub const BS_C10003: &[u8] =
    b"BSDC10003240610              POO                                               P";

/// The deletion of a schedule of C10003, without a train status or train category.
pub const BS_C10003_PLAIN: &[u8] =
    b"BSDC10003240610                                                                P";

/// A schedule of C20001 on 10 June.
pub const BS_NIGHT: &[u8] =
    b"BSNC200012406102406101000000 POO2B20                                           P";

/// A schedule of C30001 on 10 June.
pub const BS_C30001: &[u8] =
    b"BSNC300012406102406101000000 POO3C30                                           P";

/// A schedule of C30002 on 10 June.
pub const BS_C30002: &[u8] =
    b"BSNC300022406102406101000000 POO3C32                                           P";

/// The deletion of the schedule of C30002 on 10 June.
pub const BS_C30002_DELETED: &[u8] =
    b"BSDC30002240610              POO                                               P";

/// A schedule of C40001 on 10 June.
pub const BS_C40001: &[u8] =
    b"BSNC400012406102406101000000 POO4D40                                           P";

/// The cancellation of C40001 on 10 June.
pub const BS_C40001_CANCELLED: &[u8] =
    b"BSNC400012406102406101000000 POO4D40                                           C";

/// A schedule of C40001 on 31 December 2059.
pub const BS_C40001_LAST: &[u8] =
    b"BSNC400015912315912310010000 POO4D40                                           P";

/// A schedule of C40002 on 11 June.
pub const BS_C40002: &[u8] =
    b"BSNC400022406112406110100000 POO4D42                                           P";

/// The cancellation of C40002 on 11 June.
pub const BS_C40002_CANCELLED: &[u8] =
    b"BSNC400022406112406110100000 POO4D42                                           C";

/// A schedule of C50001 on 10 June.
pub const BS_C50001: &[u8] =
    b"BSNC500012406102406101000000 POO5E50                                           P";

/// An overlay of C10001's permanent schedule, on the same days.
pub const BS_OVERLAY_WEEKDAYS: &[u8] =
    b"BSNC100012406102406141111100 POO1A10                                           O";
