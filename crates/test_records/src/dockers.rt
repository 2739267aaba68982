//! Printed dockers: headings, lines and the last line, each of 56 bytes, and whole dockers made
//! from them.

/// The heading of the docker of Ashfeld on 10 June 2024.
pub const AT_ASHFELD: &[u8] = b"DOCKER ASHFELD 2024-06-10                               ";

/// The heading of the docker of Ashfeld on 11 June.
pub const AT_ASHFELD_11: &[u8] = b"DOCKER ASHFELD 2024-06-11                               ";

/// The heading of the docker of Ashfeld on 12 June.
pub const AT_ASHFELD_12: &[u8] = b"DOCKER ASHFELD 2024-06-12                               ";

/// The heading of the docker of Ashfeld on 13 June.
pub const AT_ASHFELD_13: &[u8] = b"DOCKER ASHFELD 2024-06-13                               ";

/// The heading of the docker of Ashfeld on 14 June.
pub const AT_ASHFELD_14: &[u8] = b"DOCKER ASHFELD 2024-06-14                               ";

/// The heading of the docker of Ashfeld on 15 June.
pub const AT_ASHFELD_15: &[u8] = b"DOCKER ASHFELD 2024-06-15                               ";

/// The heading of the docker of Ashfeld on 16 June.
pub const AT_ASHFELD_16: &[u8] = b"DOCKER ASHFELD 2024-06-16                               ";

/// The heading of the docker of Ashfeld on 17 June.
pub const AT_ASHFELD_17: &[u8] = b"DOCKER ASHFELD 2024-06-17                               ";

/// The heading of the docker of Ashfeld on 18 June.
pub const AT_ASHFELD_18: &[u8] = b"DOCKER ASHFELD 2024-06-18                               ";

/// The heading of the docker of Ashfeld on 24 June.
pub const AT_ASHFELD_24: &[u8] = b"DOCKER ASHFELD 2024-06-24                               ";

/// The heading of the docker of Ashfeld on 30 December 2059.
pub const AT_ASHFELD_LAST_BUT_ONE: &[u8] =
    b"DOCKER ASHFELD 2059-12-30                               ";

/// The heading of the docker of Ashfeld on 31 December 2059, the last day of the calendar.
pub const AT_ASHFELD_LAST: &[u8] = b"DOCKER ASHFELD 2059-12-31                               ";

/// The heading of the docker of Ashfeld on 10 June, with Ashfeld's description.
pub const AT_ASHFIELD_CENTRAL: &[u8] = b"DOCKER ASHFELD 2024-06-10 ASHFIELD CENTRAL              ";

/// The heading of the docker of Ashfeld on 10 June, with Ashfeld's new code and new description.
pub const AT_ASHFLDN: &[u8] = b"DOCKER ASHFLDN 2024-06-10 ASHFIELD NEW                  ";

/// The heading of the docker of Brayton on 10 June.
pub const AT_BRAYTON: &[u8] = b"DOCKER BRAYTON 2024-06-10                               ";

/// The heading of the docker of Brayton on 11 June.
pub const AT_BRAYTON_11: &[u8] = b"DOCKER BRAYTON 2024-06-11                               ";

/// The heading of the docker of Brayton on 12 June.
pub const AT_BRAYTON_12: &[u8] = b"DOCKER BRAYTON 2024-06-12                               ";

/// The heading of the docker of Brayton on 13 June.
pub const AT_BRAYTON_13: &[u8] = b"DOCKER BRAYTON 2024-06-13                               ";

/// The heading of the docker of Brayton on 14 June.
pub const AT_BRAYTON_14: &[u8] = b"DOCKER BRAYTON 2024-06-14                               ";

/// The heading of the docker of Brayton on 15 June.
pub const AT_BRAYTON_15: &[u8] = b"DOCKER BRAYTON 2024-06-15                               ";

/// The heading of the docker of Colwell on 10 June.
pub const AT_COLWELL: &[u8] = b"DOCKER COLWELL 2024-06-10                               ";

/// The heading of the docker of Colwell on 11 June.
pub const AT_COLWELL_11: &[u8] = b"DOCKER COLWELL 2024-06-11                               ";

/// The heading of the docker of Colwell on 12 June.
pub const AT_COLWELL_12: &[u8] = b"DOCKER COLWELL 2024-06-12                               ";

/// The heading of the docker of Colwell on 31 December 2059, the last day of the calendar.
pub const AT_COLWELL_LAST: &[u8] = b"DOCKER COLWELL 2059-12-31                               ";

/// The heading of the docker of Dunmere on 11 June.
pub const AT_DUNMERE_11: &[u8] = b"DOCKER DUNMERE 2024-06-11                               ";

/// The heading of the docker of Elm on 10 June.
pub const AT_ELM: &[u8] = b"DOCKER ELM     2024-06-10                               ";

/// The last line of each docker.
pub const END: &[u8] = b"END                                                     ";

/// The docker line for C10001, which leaves Ashfeld at 08:50.
pub const LEAVES_0850: &[u8] = b"0850  D 1A10 C10001 P   1   SL      0850 ASHFELD BRAYTON";

/// The docker line for C10001, which leaves Ashfeld at 09:00.
pub const LEAVES_0900: &[u8] = b"0900  D 1A10 C10001 P   1   SL      0900 ASHFELD BRAYTON";

/// The docker line for C10001, which leaves Ashfeld at 09:00, according to a new schedule with the
/// STP indicator `N`.
pub const LEAVES_AS_NEW: &[u8] = b"0900  D 1A10 C10001 N   1   SL      0900 ASHFELD BRAYTON";

/// The docker line for C10001, which leaves Ashfeld half a minute past 09:00.
pub const LEAVES_0900H: &[u8] = b"0900H D 1A10 C10001 P 2                  ASHFELD BRAYTON";

/// The docker line for C10001, which comes back to Ashfeld at 09:00.
pub const ROUND_COMES: &[u8] = b"0900  A 1A10 C10001 P   2       FL  0900 ASHFELD ASHFELD";

/// The docker line for C10001, which leaves Ashfeld at 09:00 and ends there too.
pub const ROUND_LEAVES: &[u8] = b"0900  D 1A10 C10001 P   1   SL      0900 ASHFELD ASHFELD";

/// The docker line for C10001, which leaves Ashfeld at 09:05.
pub const LEAVES_0905: &[u8] = b"0905  D 1A10 C10001 P   1   SL      0905 ASHFELD BRAYTON";

/// The docker line for C10001, which leaves Ashfeld at 09:05, according to its overlay.
pub const LEAVES_AS_OVERLAY: &[u8] = b"0905  D 1A10 C10001 O   1   SL      0905 ASHFELD BRAYTON";

/// The docker line for C10001, which leaves Ashfeld at 09:10.
pub const LEAVES_0910: &[u8] = b"0910  D 1A10 C10001 P   1   SL      0910 ASHFELD BRAYTON";

/// The docker line for C10001, which leaves Ashfeld at 09:15, according to its overlay.
pub const LEAVES_0915: &[u8] = b"0915  D 1A10 C10001 O   1   SL      0915 ASHFELD BRAYTON";

/// The docker line for C10001, which leaves Colwell at 10:45, according to its overlay.
pub const LEAVES_ELSEWHERE: &[u8] = b"1045  D 1A10 C10001 O   5                COLWELL DUNMERE";

/// The docker line for C10001, which arrives at Brayton at 09:30.
pub const COMES_0930: &[u8] = b"0930  A 1A10 C10001 P   2       FL  0932 ASHFELD BRAYTON";

/// The docker line for C10001, which arrives at Brayton at 00:05.
pub const COMES_0005: &[u8] = b"0005  A 1A10 C10001 P   2       FL  0006 ASHFELD BRAYTON";

/// The docker line for C10002, which leaves Ashfeld at 10:00.
pub const LEAVES_1000: &[u8] = b"1000  D 1A20 C10002 P   1   SL      1000 ASHFELD BRAYTON";

/// The docker line for C10001, which leaves Ashfeld at 11:00.
pub const LEAVES_1100: &[u8] = b"1100  D 1A10 C10001 P   1   SL      1100 ASHFELD BRAYTON";

/// The docker line for C20001, which arrives at Colwell half a minute past midnight.
pub const NIGHT_COMES: &[u8] = b"0000H A 2B20 C20001 P   2   SL  FL       ASHFELD BRAYTON";

/// The docker line for C20001, which leaves Colwell half a minute past midnight.
pub const NIGHT_LEAVES: &[u8] = b"0000H D 2B20 C20001 P   2   SL  FL  0001 ASHFELD BRAYTON";

/// The docker line for C20001, which passes Dunmere at 00:10.
pub const NIGHT_PASSES: &[u8] = b"0010  P 2B20 C20001 P                    ASHFELD BRAYTON";

/// The docker line for C20001, which passes Dunmere at 00:05, after a second midnight.
pub const SECOND_NIGHT_PASSES: &[u8] = b"0005  P 2B20 C20001 P                    ASHFELD BRAYTON";

/// The docker line for C20001, which arrives at Brayton at 00:06, after a second midnight.
pub const SECOND_NIGHT_COMES: &[u8] = b"0006  A 2B20 C20001 P                    ASHFELD BRAYTON";

/// Like `SECOND_NIGHT_COMES`, with a platform, a path and a public time.
pub const SECOND_NIGHT_COMES_PUBLIC: &[u8] =
    b"0006  A 2B20 C20001 P   2       FL  0007 ASHFELD BRAYTON";

/// The docker line for C30001, which arrives at Colwell at 10:10.
pub const FIRST_COMES: &[u8] = b"1010  A 3C30 C30001 P   3                ASHFELD BRAYTON";

/// The docker line for C30001, which leaves Colwell at 10:12.
pub const FIRST_LEAVES: &[u8] = b"1012  D 3C30 C30001 P   3                ASHFELD BRAYTON";

/// The docker line for C30001, which arrives at Colwell a second time, at 10:40.
pub const AGAIN_COMES: &[u8] = b"1040  A 3C30 C30001 P 2 4                ASHFELD BRAYTON";

/// The docker line of an association: C30002 divides from C30001 at Colwell.
pub const DIVIDES: &[u8] = b"1040  V 3C30 C30001 P 2 4                C30002  3C32   ";

/// The docker line for C30001, which leaves Colwell a second time, at 10:42.
pub const AGAIN_LEAVES: &[u8] = b"1042  D 3C30 C30001 P 2 4                ASHFELD BRAYTON";

/// The docker line for C30002, which leaves Colwell at 10:45.
pub const OTHER_LEAVES: &[u8] = b"1045  D 3C32 C30002 P   5                COLWELL DUNMERE";

/// The docker line for C40001, which arrives at Colwell at 23:50.
pub const COMES_2350: &[u8] = b"2350  A 4D40 C40001 P   1                ASHFELD COLWELL";

/// The docker line of an association: C40002 is the next working of C40001 at Colwell.
pub const WORKS_ON: &[u8] = b"2350  N 4D40 C40001 P   1                C40002  4D42   ";

/// Like `WORKS_ON`, but the train identity of C40002 isn't known.
pub const WORKS_ON_UNKNOWN: &[u8] = b"2350  N 4D40 C40001 P   1                C40002  ????   ";

/// Like `WORKS_ON_UNKNOWN`, by an association with the STP indicator `N`.
pub const WORKS_ON_AS_NEW: &[u8] = b"2350  N 4D40 C40001 N   1                C40002  ????   ";

/// The docker line for C50001, which leaves Ashfeld at 12:00.
pub const LEAVES_AS_5E50: &[u8] = b"1200  D 5E50 C50001 P                    ASHFELD BRAYTON";

/// The docker line for C50001, which passes Colwell at 12:10, now with another train identity.
pub const PASSES_AS_5E51: &[u8] = b"1210  P 5E51 C50001 P                    ASHFELD BRAYTON";

/// The docker line for C50001, which arrives at Brayton at 12:30, still with its new train
/// identity.
pub const COMES_AS_5E51: &[u8] = b"1230  A 5E51 C50001 P                    ASHFELD BRAYTON";

/// The lines of a whole docker or of another printed text, in order.
pub type Lines = &'static [&'static [u8]];

/// The docker of Ashfeld with one line: C10001 leaves at 09:00.
pub const ASHFELD_0900: Lines = &[AT_ASHFELD, LEAVES_0900, END];

/// The docker of Ashfeld with one line: C10001 leaves at 08:50.
pub const ASHFELD_0850: Lines = &[AT_ASHFELD, LEAVES_0850, END];

/// The docker of Ashfeld with one line: C10001 leaves at 09:05.
pub const ASHFELD_0905: Lines = &[AT_ASHFELD, LEAVES_0905, END];

/// The docker of Ashfeld with two lines: C10002 leaves at 10:00, and C10001 leaves at 11:00.
pub const TWO_TRAINS: Lines = &[AT_ASHFELD, LEAVES_1000, LEAVES_1100, END];

/// The docker of Ashfeld with no lines.
pub const NONE_AT_ASHFELD: Lines = &[AT_ASHFELD, END];

/// The docker of Ashfeld on 18 June, with no lines.
pub const NONE_ON_18_JUNE: Lines = &[AT_ASHFELD_18, END];

/// The docker of Ashfeld on 24 June, with no lines.
pub const NONE_ON_24_JUNE: Lines = &[AT_ASHFELD_24, END];

/// The docker of Brayton with no lines.
pub const NONE_AT_BRAYTON: Lines = &[AT_BRAYTON, END];

/// The docker of Colwell with no lines.
pub const NONE_AT_COLWELL: Lines = &[AT_COLWELL, END];

/// The docker of Ashfeld with no lines, under its new code.
pub const NONE_AT_ASHFLDN: Lines = &[AT_ASHFLDN, END];

/// The docker of Elm with no lines.
pub const NONE_AT_ELM: Lines = &[AT_ELM, END];

/// The docker of Colwell with two calls of C30001, from which C30002 divides.
pub const DIVISION: Lines = &[
    AT_COLWELL,
    FIRST_COMES,
    FIRST_LEAVES,
    AGAIN_COMES,
    DIVIDES,
    AGAIN_LEAVES,
    OTHER_LEAVES,
    END,
];

/// The docker of Colwell with one line: C40001 arrives, and has no next working.
pub const COLWELL_ONLY: Lines = &[AT_COLWELL, COMES_2350, END];

/// The docker of Colwell with two lines: C40001 arrives, and its next working is C40002.
pub const COLWELL_WORKS_ON: Lines = &[AT_COLWELL, COMES_2350, WORKS_ON, END];

/// The docker of Colwell with two lines: C40001 arrives, and its next working doesn't run.
pub const COLWELL_UNKNOWN: Lines = &[AT_COLWELL, COMES_2350, WORKS_ON_UNKNOWN, END];
