//! Records of associations (AA), each with its 80 columns as in a file.

/// An association: C10002 joins C10001 at Ashfeld.
pub const AA_JOIN: &[u8] =
    b"AANC10001C100022406102406141111100JJSASHFELD  TP                               P";

/// An association: C20001 divides from C10001 at Colwell. The last day is 1 January 1960.
pub const AA_ENDS_1960: &[u8] =
    b"AANC10001C200012406106001011111100VVSCOLWELL  TP                               P";

/// An association: C20001 divides from C10001 at Colwell. The last day is 31 December 2059.
pub const AA_ENDS_2059: &[u8] =
    b"AANC10001C200012406105912311111100VVSCOLWELL  TP                               P";

/// An association: C20001 joins C10001 at Colwell. There is no last day.
pub const AA_NO_END: &[u8] =
    b"AANC10001C200012406109999991111100JJSCOLWELL  TP                               P";

/// An association: C20001 divides from C10001 at Colwell. There is no last day.
pub const AA_NO_END_DIVIDE: &[u8] =
    b"AANC10001C200012406109999991111100VVSCOLWELL  TP                               P";

/// An association: C30002 divides from C30001 at Colwell, when C30001 calls there for the second
/// time.
pub const AA_DIVIDE: &[u8] =
    b"AANC30001C300022406102406101000000VVSCOLWELL2 TP                               P";

/// The cancellation of `AA_DIVIDE`.
pub const AA_DIVIDE_CANCELLED: &[u8] =
    b"AANC30001C300022406102406101000000VVSCOLWELL2 TP                               C";

/// An association: C40002 is the next working of C40001 at Colwell, and starts on the next day.
pub const AA_N: &[u8] =
    b"AANC40001C400022406102406101000000NPNCOLWELL  TP                               P";

/// An association: C40002 is the next working of C40001 at Colwell, and starts on the same day.
pub const AA_S: &[u8] =
    b"AANC40001C400022406102406101000000NPSCOLWELL  TP                               P";

/// An association: C40002 is the next working of C40001 at Colwell, and starts on the day before.
pub const AA_P: &[u8] =
    b"AANC40001C400022406102406101000000NPPCOLWELL  TP                               P";

/// An association: C40002 is the next working of C40001 at Colwell. The date indicator is blank.
pub const AA_BLANK: &[u8] =
    b"AANC40001C400022406102406101000000NP COLWELL  TP                               P";

/// An association: C40002 is the next working of C40001 at Colwell. The date indicator is an
/// unknown letter.
pub const AA_X: &[u8] =
    b"AANC40001C400022406102406101000000NPXCOLWELL  TP                               P";

/// An association between C40001 and C40002 at Colwell, with an unknown category.
pub const AA_OTHER: &[u8] =
    b"AANC40001C400022406102406101000000XXNCOLWELL  TP                               P";

/// An association: C40002 is the next working of C40001 at Colwell, and starts on the day after 31
/// December 2059.
pub const AA_LAST: &[u8] =
    b"AANC40001C400025912315912310010000NPNCOLWELL  TP                               P";
