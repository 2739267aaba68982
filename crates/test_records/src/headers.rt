//! Headers (HD), the trailer (ZZ) and a note (LN), each with its 80 columns as in a file.

/// The header of an update of 9 June 2024, 21:00.
pub const HD: &[u8] =
    b"HDTPS.UDFROC1.PD2406090906242100DFROC1ADFROC1ZUA                                ";

/// The header of a full extract of 9 June 2024, 21:00.
pub const HD_FULL: &[u8] =
    b"HDTPS.UDFROC1.PD2406090906242100DFROC1ADFROC1ZFA                                ";

/// The header of an update of 10 June, which follows the update of 9 June.
pub const HD_10B: &[u8] =
    b"HDTPS.UDFROC1.PD2406091006242100DFROC1BDFROC1AUA                                ";

/// The header of an update of 10 June, 06:05, which also follows the update of 9 June.
pub const HD_10B_0605: &[u8] =
    b"HDTPS.UDFROC1.PD2406101006240605DFROC1BDFROC1AUA                                ";

/// The header of an update of 9 June that follows the file with the reference DFROC1A.
pub const HD_9B: &[u8] =
    b"HDTPS.UDFROC1.PD2406090906242100DFROC1BDFROC1AUA                                ";

/// The header of an update of 9 June that follows the full extract of 7 June.
pub const HD_9C: &[u8] =
    b"HDTPS.UDFROC1.PD2406090906242100DFROC1CDFROC1BUA                                ";

/// The header of an update of 8 June.
pub const HD_8A: &[u8] =
    b"HDTPS.UDFROC1.PD2406090806242100DFROC1ADFROC1ZUA                                ";

/// The header of an update of 5 June.
pub const HD_5A: &[u8] =
    b"HDTPS.UDFROC1.PD2406090506242100DFROC1ADFROC1ZUA                                ";

/// The header of a full extract of 7 June.
pub const HD_7B: &[u8] =
    b"HDTPS.UDFROC1.PD2406090706242100DFROC1BDFROC1AFA                                ";

/// A header with an unknown update indicator.
pub const HD_X: &[u8] =
    b"HDTPS.UDFROC1.PD2406090906242100DFROC1ADFROC1ZXA                                ";

/// The header of an update of 1 January 2000, 03:07.
pub const HD_EARLY: &[u8] =
    b"HDTPS.UDFROC1.PD2406090101000307DFROC1ADFROC1ZUA                                ";

/// A note record (LN). No kind of record has this record identity.
pub const LN: &[u8] =
    b"LN                                                                              ";

/// The trailer.
pub const ZZ: &[u8] =
    b"ZZ                                                                              ";
