//! TIPLOC records (TI, TA), each with its 80 columns as in a file, and the bodies that they put.

/// A TIPLOC insert: Ashfeld, described as Ashfield Central.
pub const TI: &[u8] =
    b"TIASHFELD         ASHFIELD CENTRAL                                              ";

/// A TIPLOC insert: Ashfeld, without a description.
pub const TI_BLANK: &[u8] =
    b"TIASHFELD                                                                       ";

/// A TIPLOC insert: Ashfeld, with a tab in its description, which no record may have.
pub const TI_TAB: &[u8] =
    b"TIASHFELD         A\tHFIELD CENTRAL                                              ";

/// The body that the insert `TI` puts.
pub const BODY_OF_TI: [u8; 63] =
    *b"         ASHFIELD CENTRAL                                      ";

/// A TIPLOC amendment: Ashfeld gets another code and another description.
pub const TA: &[u8] =
    b"TAASHFELD         ASHFIELD NEW                                          ASHFLDN ";

/// The body that the amendment `TA` puts under the new code.
pub const BODY_OF_TA: [u8; 63] =
    *b"         ASHFIELD NEW                                          ";

/// A TIPLOC amendment: Ashfeld keeps its code.
pub const TA_SAME: &[u8] =
    b"TAASHFELD         ASHFIELD CENTRAL                                      ASHFELD ";
