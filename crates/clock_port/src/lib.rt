//! The fields of the datetime device: what a clock at a fixed offset shows at a moment. The calendar is `jiff`'s.
#![tactic(auto)]

ghost use Rattle.std.specs.Prelude.{◌≡◌, ℕ, pos, neg_ℤ, ◌+ℤ◌, ◌*ℤ◌, ◌≤ℤ◌};
ghost use Rattle.jiff.specs.Words.{civil_nanos};
ghost use Rattle.clock_port.specs.declared.TheConstants.{LAST_SECOND, LAST_OFFSET};
ghost use Rattle.clock_port.specs.Calendar.{IsDate, civil_fields, date_fields, day_number, fields_of};

use jiff::Timestamp;
use jiff::civil::DateTime;
use jiff::tz::Offset;

/// The greatest number of seconds that `fields` takes: that at which a script may begin, and the frames of its run. The last of
/// them lie in the year 9998.
pub const LAST_SECOND: i64 = 253_370_100_000;

/// The greatest offset that `fields` takes, in minutes, to either side of UTC.
pub const LAST_OFFSET: i32 = 840;

/// What the ports of the datetime device read (Varvara device reference).
#[derive(Clone, Copy)]
pub struct CivilFields {
    /// The year, as 2026.
    pub year: u16,
    /// The month, 0 for January to 11 for December.
    pub month: u8,
    /// The day of the month, 1 to 31.
    pub day: u8,
    /// The hour, 0 to 23.
    pub hour: u8,
    /// The minute, 0 to 59.
    pub minute: u8,
    /// The second, 0 to 59.
    pub second: u8,
    /// The day of the week, 0 for Sunday to 6 for Saturday.
    pub weekday: u8,
    /// The day of the year, 0 for 1 January to 365.
    pub year_day: u16,
}

/// What a clock shows that many seconds after 1970-01-01 00:00:00 UTC, at an offset of so many minutes ahead of UTC.
pub fn fields(seconds: i64, offset_minutes: i32) -> CivilFields
    requires seconds_from { pos 0 ≤ℤ seconds }
    requires seconds_to { seconds ≤ℤ LAST_SECOND }
    requires offset_from { neg_ℤ LAST_OFFSET ≤ℤ offset_minutes }
    requires offset_to { offset_minutes ≤ℤ LAST_OFFSET }
    ensures { result ≡ civil_fields seconds offset_minutes }
{
    let shown = shown_at(seconds, offset_minutes);
    CivilFields {
        year: shown.year().unsigned_abs(),
        month: shown.month().unsigned_abs() - 1,
        day: shown.day().unsigned_abs(),
        hour: shown.hour().unsigned_abs(),
        minute: shown.minute().unsigned_abs(),
        second: shown.second().unsigned_abs(),
        weekday: shown.weekday().to_sunday_zero_offset().unsigned_abs(),
        year_day: shown.day_of_year().unsigned_abs() - 1,
    }
}

/// The definition of the fields finds each date of the calendar: the day of a date has this year, month and day.
pub fn each_date_is_found()
    ensures { (year month day second : ℕ) → IsDate year month day → fields_of (day_number year month day) second ≡ date_fields year month day second }
{}

// The calendar's date and time at a moment.
fn shown_at(seconds: i64, offset_minutes: i32) -> DateTime
    requires seconds_from { pos 0 ≤ℤ seconds }
    requires seconds_to { seconds ≤ℤ LAST_SECOND }
    requires offset_from { neg_ℤ LAST_OFFSET ≤ℤ offset_minutes }
    requires offset_to { offset_minutes ≤ℤ LAST_OFFSET }
    ensures { civil_nanos result ≡ seconds *ℤ pos 1000000000 +ℤ offset_minutes *ℤ pos 60 *ℤ pos 1000000000 }
{
    let moment = Timestamp::from_second(seconds).unwrap();
    let offset = Offset::from_seconds(offset_minutes * 60).unwrap();
    offset.to_datetime(moment)
}
