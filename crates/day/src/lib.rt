// Seconds since 1970 as a Gregorian day, YYYY-MM-DD.
#![tactic(auto)]

ghost use Rattle.std.specs.Prelude.{◌≡◌, true, ◌++◌, ◌+◌, ◌≤◌, ◌<◌, length, drop};
ghost use Rattle.text.specs.Ascii.{all_digits};
ghost use Rattle.day.specs.Day.{date_after, number, iso, is_seconds, day_of, answer, output};

use lending::lent::Refusal;

#[derive(Clone, Copy, Debug, PartialEq, Eq)]
pub struct Date {
    pub year: u64,
    pub month: u64,
    pub day: u64,
}

// The day that lies n days after 1970-01-01.
fn date_after(n: u64) -> Date
    requires { n < 4294967296 }
    ensures { result ≡ date_after n }
{
    let days = n + 719468;
    let era = days / 146097;
    let day_of_era = days % 146097;
    let year_of_era = (day_of_era - day_of_era / 1460 + day_of_era / 36524 - day_of_era / 146096)
        / 365;
    let day_of_year = day_of_era - (365 * year_of_era + year_of_era / 4 - year_of_era / 100);
    // Months count from March: month m starts (153 * m + 2) / 5 days after 1 March (specs/MonthStarts.antt).
    let month_parameter = (5 * day_of_year + 2) / 153;
    let day = day_of_year - (153 * month_parameter + 2) / 5 + 1;
    let year = era * 400 + year_of_era;
    if month_parameter < 10 {
        Date {
            year,
            month: month_parameter + 3,
            day,
        }
    } else {
        Date {
            year: year + 1,
            month: month_parameter - 9,
            day,
        }
    }
}

pub fn all_digits(s: &[u8]) -> bool
    ensures { result ≡ all_digits s.now }
{
    s.iter().all(|b| b.is_ascii_digit())
}

// 9 to 11 digits.
#[tactic(auto, unfolding(crate::specs::Day::is_seconds))]
pub fn is_seconds(s: &[u8]) -> bool
    ensures { result ≡ is_seconds s.now }
{
    (9..=11).contains(&s.len()) && all_digits(s)
}

// What the digits of s spell.
fn seconds_of(s: &[u8]) -> u64
    requires { (length s.now ≤ 11) × (all_digits s.now ≡ true) }
    ensures { (result ≡ number s.now) × (result < 100000000000) }
{
    let mut n = 0;
    for &b in s {
        n = 10 * n + u64::from(b - b'0');
    }
    n
}

// The digit of a number below ten.
fn digit(n: u64) -> u8
    requires { n < 10 }
    ensures { result ≡ 48 + n }
{
    b'0' + n as u8
}

// YYYY-MM-DD.
fn iso(date: Date) -> [u8; 10]
    requires { (date.year < 10000) × (date.month < 100) × (date.day < 100) }
    ensures { result ≡ iso date }
{
    [
        digit(date.year / 1000),
        digit(date.year / 100 % 10),
        digit(date.year / 10 % 10),
        digit(date.year % 10),
        b'-',
        digit(date.month / 10),
        digit(date.month % 10),
        b'-',
        digit(date.day / 10),
        digit(date.day % 10),
    ]
}

// Writes the day of 9 to 11 digits over the first ten bytes.
pub fn write_day(digits: &[u8], out: &mut [u8])
    requires { (is_seconds digits.now ≡ true) × (10 ≤ length out.old) }
    ensures { out.new ≡ day_of digits.now ++ drop 10 out.old }
{
    out[..10].copy_from_slice(&iso(date_after(seconds_of(digits) / 86400)));
}

// The day of a number of seconds since 1970: document 01, "Day".
pub fn unix_seconds_date(text: &[u8], out: &mut [u8]) -> Result<(), Refusal>
    ensures { (result ≡ answer text.now (length out.old)) × (out.new ≡ output text.now (length out.old)) }
{
    out.fill(0);
    if out.len() < 10 {
        return Err(Refusal::SizesWrong);
    }
    if !is_seconds(text) {
        return Err(Refusal::NotSeconds);
    }
    write_day(text, out);
    Ok(())
}
