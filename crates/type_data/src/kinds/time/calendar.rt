ghost use Rattle.std.specs.Prelude.{◌≡◌, ◌+◌, ◌-◌, ◌<◌, ◌≤◌, ◌↔◌, IsTrue};
ghost use Rattle.type_data.specs.Kinds.Time.Calendar.{IsDateTime, days_of_months, days_of_years, is_leap, month_length, seconds_since, year_length};

/// The seconds of a day.
const DAY: u32 = 86_400;

/// A date of the Gregorian calendar and a time of day in UTC.
#[derive(Clone, Copy)]
pub(super) struct DateTime {
    pub(super) year: u32,
    /// From 1 on.
    pub(super) month: u32,
    /// From 1 on.
    pub(super) day: u32,
    pub(super) hour: u32,
    pub(super) minute: u32,
    pub(super) second: u32,
}

impl DateTime {
    /// Whether it is a date from 1970 on that the calendar has, and a time that a day has.
    pub(super) fn exists(self) -> bool
        ensures { IsTrue result ↔ IsDateTime self }
    {
        self.year >= 1970
            && self.month >= 1
            && self.month <= 12
            && self.day >= 1
            && self.day <= month_len(self.year, self.month)
            && self.hour <= 23
            && self.minute <= 59
            && self.second <= 59
    }

    /// That of so many seconds since 1970, leap seconds left out.
    pub(super) fn after(seconds: u32) -> DateTime
        ensures exists { IsDateTime result }
        ensures value { seconds_since result ≡ seconds }
        ensures four_digits { result.year ≤ 9999 }
    {
        let (days, second) = (seconds / DAY, seconds % DAY);
        let year = year_of(days);
        let rest = days - days_to_year(year);
        let month = month_of(year, rest);
        DateTime {
            year,
            month,
            day: rest - days_before(year, month) + 1,
            hour: second / 3600,
            minute: second / 60 % 60,
            second: second % 60,
        }
    }

    /// The seconds since 1970, leap seconds left out.
    pub(super) fn seconds(self) -> u64
        requires exists { IsDateTime self }
        requires four_digits { self.year ≤ 9999 }
        ensures { result ≡ seconds_since self }
    {
        let days = days_to_year(self.year) + days_before(self.year, self.month) + (self.day - 1);
        let time = self.hour * 3600 + self.minute * 60 + self.second;
        u64::from(days) * 86400 + u64::from(time)
    }
}

/// Whether the year has a 29th of February.
fn is_leap(year: u32) -> bool
    ensures { result ≡ is_leap year }
{
    (year % 4 == 0 && year % 100 != 0) || year % 400 == 0
}

/// The days of a month.
fn month_len(year: u32, month: u32) -> u32
    ensures { result ≡ month_length year month }
{
    match month {
        2 => { if is_leap(year) { 29 } else { 28 } }
        4 | 6 | 9 | 11 => 30,
        _ => 31,
    }
}

/// The days of a year before a month.
fn days_before(year: u32, month: u32) -> u32
    requires { (1 ≤ month) × (month ≤ 12) }
    ensures value { result ≡ days_of_months year (month - 1) }
    ensures few { result ≤ 335 }
{
    let leap = if is_leap(year) { 1 } else { 0 };
    match month {
        1 => 0,
        2 => 31,
        3 => 59 + leap,
        4 => 90 + leap,
        5 => 120 + leap,
        6 => 151 + leap,
        7 => 181 + leap,
        8 => 212 + leap,
        9 => 243 + leap,
        10 => 273 + leap,
        11 => 304 + leap,
        _ => 334 + leap,
    }
}

/// The days of the years from 1970 up to a year: 365 each, and those of leap years, of which 477
/// lie before 1970.
#[tactic(auto, using(crate::proofs::OfKinds::Time::Years::years_closed))]
fn days_to_year(year: u32) -> u32
    requires { (1970 ≤ year) × (year ≤ 9999) }
    ensures value { result ≡ days_of_years (year - 1970) }
    ensures few { result ≤ 3000000 }
{
    let before = year - 1;
    365 * (year - 1970) + before / 4 + before / 400 - before / 100 - 477
}

/// The year of a day so many days after 1 January 1970, at most those of 2 ^ 32 seconds.
#[tactic(auto, using(crate::proofs::OfKinds::Time::Years::years_closed))]
fn year_of(days: u32) -> u32
    requires { days ≤ 49710 }
    ensures within { (1970 ≤ result) × (result ≤ 2106) }
    ensures begun { days_of_years (result - 1970) ≤ days }
    ensures going { days < days_of_years (result - 1970) + year_length result }
{
    // Never too low, and too high by one at most.
    let year = 1970 + days / 365;
    if days_to_year(year) > days {
        year - 1
    } else {
        year
    }
}

/// The month of a day of a year, of which the first is 0.
fn month_of(year: u32, day: u32) -> u32
    requires { day < year_length year }
    ensures within { (1 ≤ result) × (result ≤ 12) }
    ensures begun { days_of_months year (result - 1) ≤ day }
    ensures going { day < days_of_months year (result - 1) + month_length year result }
{
    // Never too high, and too low by one at most.
    let month = day / 31 + 1;
    if month < 12 && days_before(year, month + 1) <= day {
        month + 1
    } else {
        month
    }
}
