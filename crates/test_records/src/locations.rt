//! Location records (LO, LI, LT) and a change en route (CR), each with its 80 columns as in a file.

/// An origin: Ashfeld, 09:00.
pub const LO: &[u8] =
    b"LOASHFELD 0900 09001  SL                                                        ";

/// An origin: Ashfeld, 08:50.
pub const LO_0850: &[u8] =
    b"LOASHFELD 0850 08501  SL                                                        ";

/// An origin: Ashfeld, 09:05.
pub const LO_0905: &[u8] =
    b"LOASHFELD 0905 09051  SL                                                        ";

/// An origin: Ashfeld, 09:10.
pub const LO_0910: &[u8] =
    b"LOASHFELD 0910 09101  SL                                                        ";

/// An origin: Ashfeld, 09:15.
pub const LO_0915: &[u8] =
    b"LOASHFELD 0915 09151  SL                                                        ";

/// An origin: Ashfeld, 09:20.
pub const LO_0920: &[u8] =
    b"LOASHFELD 0920 09201  SL                                                        ";

/// An origin: Ashfeld, 09:40.
pub const LO_0940: &[u8] =
    b"LOASHFELD 0940 09401  SL                                                        ";

/// An origin: Ashfeld, 10:00.
pub const LO_1000: &[u8] =
    b"LOASHFELD 1000 10001  SL                                                        ";

/// An origin: Ashfeld, 10:00, without a public time or a line.
pub const LO_1000_PLAIN: &[u8] =
    b"LOASHFELD 1000     1                                                            ";

/// An origin: Ashfeld, 11:00.
pub const LO_1100: &[u8] =
    b"LOASHFELD 1100 11001  SL                                                        ";

/// An origin: Ashfeld, 12:00. All other fields are blank.
pub const LO_1200: &[u8] =
    b"LOASHFELD 1200                                                                  ";

/// An origin: Ashfeld, half a minute past 09:00. All other times are blank, and so is the platform.
pub const LO_HALF: &[u8] =
    b"LOASHFELD20900H0000                                                             ";

/// An origin: Ashfeld, 23:00, without a public time or a line.
pub const LO_2300: &[u8] =
    b"LOASHFELD 2300     1                                                            ";

/// An origin: Ashfeld, 23:55.
pub const LO_2355: &[u8] =
    b"LOASHFELD 2355 23551  SL                                                        ";

/// An origin: Ashfeld, 24:00, which isn't a time of day.
pub const LO_2400: &[u8] =
    b"LOASHFELD 2400 09001  SL                                                        ";

/// An origin: Colwell, 00:10, without a public time or a line.
pub const LO_COLWELL_0010: &[u8] =
    b"LOCOLWELL 0010     1                                                            ";

/// An origin: Colwell, 10:45, without a public time or a line.
pub const LO_COLWELL_1045: &[u8] =
    b"LOCOLWELL 1045     5                                                            ";

/// A call at Colwell half a minute past midnight.
pub const LI_0000: &[u8] =
    b"LICOLWELL 0000H0000H     000000012  SL FL                                       ";

/// An intermediate location: the train passes Dunmere at 00:05.
pub const LI_0005: &[u8] =
    b"LIDUNMERE           0005                                                        ";

/// An intermediate location: the train passes Colwell at 00:05.
pub const LI_COLWELL_0005: &[u8] =
    b"LICOLWELL           0005                                                        ";

/// An intermediate location: the train passes Dunmere at 00:10.
pub const LI_0010: &[u8] =
    b"LIDUNMERE           0010                                                        ";

/// A call at Colwell from 10:10 to 10:12.
pub const LI_1010: &[u8] =
    b"LICOLWELL 1010 1012              3                                              ";

/// A second call at Colwell, from 10:40 to 10:42.
pub const LI_1040: &[u8] =
    b"LICOLWELL21040 1042              4                                              ";

/// A pass of Colwell at 12:10.
pub const LI_COLWELL_1210: &[u8] =
    b"LICOLWELL           1210                                                        ";

/// An intermediate location: Colwell, without any time.
pub const LI_TIMELESS: &[u8] =
    b"LICOLWELL                        2                                              ";

/// A change en route at Colwell, to the train identity 5E51.
pub const CR_5E51: &[u8] =
    b"CRCOLWELL OO5E51                                                                ";

/// A terminus: Brayton, 09:30.
pub const LT: &[u8] =
    b"LTBRAYTON 0930 09322  FL                                                        ";

/// A terminus: Brayton, 09:35.
pub const LT_0935: &[u8] =
    b"LTBRAYTON 0935 09372  FL                                                        ";

/// A terminus: Brayton, 00:01.
pub const LT_0001: &[u8] =
    b"LTBRAYTON 0001 00022  FL                                                        ";

/// A terminus: Brayton, 00:05.
pub const LT_0005: &[u8] =
    b"LTBRAYTON 0005 00062  FL                                                        ";

/// A terminus: Brayton, 00:06.
pub const LT_0006: &[u8] =
    b"LTBRAYTON 0006 00072  FL                                                        ";

/// A terminus: Brayton, 00:06. All other fields are blank.
pub const LT_0006_PLAIN: &[u8] =
    b"LTBRAYTON 0006                                                                  ";

/// A terminus: Brayton, 00:20.
pub const LT_0020: &[u8] =
    b"LTBRAYTON 0020 00212  FL                                                        ";

/// A terminus: Brayton, 10:30.
pub const LT_1030: &[u8] =
    b"LTBRAYTON 1030 10322  FL                                                        ";

/// A terminus: Brayton, 11:00, without a public time or a path.
pub const LT_1100_PLAIN: &[u8] =
    b"LTBRAYTON 1100     2                                                            ";

/// A terminus: Brayton, 11:30.
pub const LT_1130: &[u8] =
    b"LTBRAYTON 1130 11322  FL                                                        ";

/// A terminus: Brayton, 12:30. All other fields are blank.
pub const LT_1230: &[u8] =
    b"LTBRAYTON 1230                                                                  ";

/// A terminus: Ashfeld, 09:00.
pub const LT_ASHFELD_0900: &[u8] =
    b"LTASHFELD 0900 09002  FL                                                        ";

/// A terminus: Ashfeld, 01:00, without a public time or a path.
pub const LT_ASHFELD_0100: &[u8] =
    b"LTASHFELD 0100     1                                                            ";

/// A terminus: Colwell, 23:50, without a public time or a path.
pub const LT_COLWELL_2350: &[u8] =
    b"LTCOLWELL 2350     1                                                            ";

/// A terminus: Dunmere, 11:00, without a public time or a path.
pub const LT_DUNMERE_1100: &[u8] =
    b"LTDUNMERE 1100     1                                                            ";
