//! A time of day as text.
ghost use Rattle.std.specs.Prelude.{◌≡◌, ◌<◌};
ghost use Rattle.docker_model.specs.records.PrintedTime.{minute_text};

/// A minute of the day as four digits, in the form HHMM.
pub fn clock_text(minute: u16) -> [u8; 4]
    requires { minute < 1440 }
    ensures { result ≡ minute_text minute }
{
    let (hour, minute) = ((minute / 60) as u8, (minute % 60) as u8);
    [
        b'0' + hour / 10,
        b'0' + hour % 10,
        b'0' + minute / 10,
        b'0' + minute % 10,
    ]
}
