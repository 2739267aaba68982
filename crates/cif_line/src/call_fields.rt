//! The five times of an intermediate location (LI). All five are checked and read at once, each in
//! its own lane of a vector.
ghost use Rattle.std.specs.Prelude.{◌≡◌, ◌&&◌, length};
ghost use Rattle.docker_model.specs.records.Record.{columns};
ghost use Rattle.docker_model.specs.records.Clock.{is_scheduled_time, is_public_time};
ghost use Rattle.cif_line.specs.CallRead.{half_minutes_or_none};

use std::simd::prelude::*;

/// The character code of `0`.
const ZERO: u16 = 48;

/// The character code of a space, the last character of a time at a whole minute.
const SPACE: u16 = 32;

/// The character code of `H`, the last character of a time at a half minute.
const HALF: u16 = 72;

/// The value stored instead of half minutes if a field has no time.
const NO_TIME: u16 = 65535;

/// The result of reading the five times of an intermediate location.
#[derive(Clone, Copy, PartialEq, Eq, Debug)]
pub(crate) struct CallFields {
    /// Whether all five times are good.
    pub are_good: bool,
    /// The scheduled arrival in half minutes, or 65535 if there is none.
    pub arrival: u16,
    /// The scheduled departure in half minutes, or 65535 if there is none.
    pub departure: u16,
    /// The scheduled pass in half minutes, or 65535 if there is none.
    pub pass: u16,
}

impl CallFields {
    /// Reads the five time fields of a line. Lanes 0 to 4 hold the scheduled arrival, departure and
    /// pass, then the public arrival and departure. The three remaining lanes repeat lane 0. A
    /// public time has only four characters, so its lane counts as one that ends in a space.
    /// Blocks are loaded at bytes 0, 16 and 32, because a line was stored in such blocks a moment
    /// before. A load that spans two such stores would have to wait for both.
    pub(crate) fn read(line: &[u8]) -> CallFields
        requires { length line.now ≡ 80 }
        ensures good { result.are_good ≡ ((((is_scheduled_time (columns 11 15 line.now)
            && is_scheduled_time (columns 16 20 line.now))
            && is_scheduled_time (columns 21 25 line.now))
            && is_public_time (columns 26 29 line.now)) && is_public_time (columns 30 33 line.now)) }
        ensures arrival { result.arrival ≡ half_minutes_or_none (columns 11 15 line.now) }
        ensures departure { result.departure ≡ half_minutes_or_none (columns 16 20 line.now) }
        ensures pass { result.pass ≡ half_minutes_or_none (columns 21 25 line.now) }
    {
        let first = u8x16::from_slice(&line[0..]);
        let second = u8x16::from_slice(&line[16..]);
        let third = u8x8::from_slice(&line[32..]);
        let hour_tens: u8x8 = first.shuffle(second, [10, 15, 20, 25, 29, 10, 10, 10]);
        let hour_units: u8x8 = first.shuffle(second, [11, 16, 21, 26, 30, 11, 11, 11]);
        let minute_tens: u8x8 = first.shuffle(second, [12, 17, 22, 27, 31, 12, 12, 12]);
        let minute_units: u8x8 = first.shuffle(second, [13, 18, 23, 28, 13, 13, 13, 13]);
        let minute_units: u8x8 = minute_units.shuffle(third, [0, 1, 2, 3, 8, 0, 0, 0]);
        let end: u8x8 = first.shuffle(second, [14, 19, 24, 14, 14, 14, 14, 14]);
        let is_public = u16x8::from_array([0, 0, 0, 1, 1, 0, 0, 0]).simd_eq(u16x8::splat(1));
        let (zero, nine, ten) = (u16x8::splat(ZERO), u16x8::splat(9), u16x8::splat(10));
        let hour_tens = hour_tens.cast::<u16>() - zero;
        let hour_units = hour_units.cast::<u16>() - zero;
        let minute_tens = minute_tens.cast::<u16>() - zero;
        let minute_units = minute_units.cast::<u16>() - zero;
        let hour = hour_tens * ten + hour_units;
        let minute = minute_tens * ten + minute_units;
        let end = end.cast::<u16>();
        let is_half = end.simd_eq(u16x8::splat(HALF));
        let is_space = end.simd_eq(u16x8::splat(SPACE)) | is_public;
        let is_time = hour_tens.simd_le(nine)
            & hour_units.simd_le(nine)
            & minute_tens.simd_le(nine)
            & minute_units.simd_le(nine)
            & hour.simd_lt(u16x8::splat(24))
            & minute.simd_lt(u16x8::splat(60))
            & (is_half | is_space);
        let space = u16x8::splat(SPACE) - zero;
        let is_blank = hour_tens.simd_eq(space)
            & hour_units.simd_eq(space)
            & minute_tens.simd_eq(space)
            & minute_units.simd_eq(space)
            & is_space;
        let half = is_half.select(u16x8::splat(1), u16x8::splat(0));
        let half_minutes = hour * u16x8::splat(120) + minute * u16x8::splat(2) + half;
        let told = is_time
            .select(half_minutes, u16x8::splat(NO_TIME))
            .to_array();
        CallFields {
            are_good: (is_time | is_blank).all(),
            arrival: told[0],
            departure: told[1],
            pass: told[2],
        }
    }
}
