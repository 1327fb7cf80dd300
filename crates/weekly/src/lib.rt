// The week of a journal: seven days of twenty-four hours from a given first hour, and what each day was.
#![tactic(auto)]

ghost use Rattle.std.specs.Prelude.{◌≡◌, map, ◌≤◌, ◌<◌};
ghost use Rattle.hourly.specs.Says.{says_hour};
ghost use Rattle.hourly.specs.Tally.{hour_among};
ghost use Rattle.weekly.specs.Week.{day_by, week_by};
ghost use Rattle.weekly.specs.Says.{says_hours};
ghost use Rattle.weekly.specs.Counted.{Each, Whole, Room, with_hour, kind_by, day_from, WeekBy};
ghost use Rattle.weekly.specs.declared.WeekError.TheVariants.{Refused};
ghost use Rattle.weekly.specs.Promises.{MakesWeek, HoldsHours, MakesDays};

use hourly::{Hour, Products, Summary, Tally};
use journal::Refusal;

// A day's hours, and the week.
pub type Row = [Hour; 24];

pub type Week = [Row; 7];

// The greatest first hour: the week's last hour is then 9,999,999.
pub const LATEST: u32 = 9999832;

// Why there is no week: the journal's refusal, or a first hour above the greatest.
#[derive(Clone, Copy, Debug, PartialEq, Eq)]
pub enum WeekError {
    Refused(Refusal),
    R21,
}

impl From<Refusal> for WeekError {
    ghost from_gives = { λ refusal e. e ≡ Refused refusal };

    fn from(refusal: Refusal) -> WeekError {
        WeekError::Refused(refusal)
    }
}

// W, I or X.
#[derive(Clone, Copy, Debug, Default, PartialEq, Eq)]
pub enum Kind {
    Worked,
    Holiday,
    #[default]
    Unknown,
}

// What a day was: its kind, how many hours are measured, and the sum over them.
#[derive(Clone, Copy, Debug, Default, PartialEq, Eq)]
pub struct Day {
    pub kind: Kind,
    pub covered: u32,
    pub sum: u64,
}

// What some hours of a day have shown.
#[derive(Clone, Copy, Default)]
struct Seen {
    sum: u64,
    covered: u32,
    idle: u32,
}

// Twenty-four hours from one on.
fn row_at(table: [Tally; journal::SPAN], found: Summary, from: u32) -> Row
    requires { from ≤ 9999976 }
    ensures { map says_hour result ≡ day_by (hour_among table found) from }
{
    let mut row = [Hour::Missing; 24];
    for h in 0..24 {
        row[h] = hourly::hour_among(table, found, from + h as u32);
    }
    row
}

// The seven days from a first hour on.
fn week_at(table: [Tally; journal::SPAN], found: Summary, first: u32) -> Week
    requires { first ≤ 9999832 }
    ensures { says_hours result ≡ week_by (hour_among table found) first }
{
    let mut week = [[Hour::Missing; 24]; 7];
    for d in 0..7 {
        week[d] = row_at(table, found, first + 24 * d as u32);
    }
    week
}

// The week of an accepted journal: R21, or its hours.
fn week_in(table: [Tally; journal::SPAN], found: Summary, first: u32) -> Result<Week, WeekError>
    ensures { WeekBy table found first result }
{
    if LATEST < first {
        return Err(WeekError::R21);
    }
    Ok(week_at(table, found, first))
}

// The week of a journal from a first hour on: the journal's refusals, then R21.
pub fn week_of(bytes: &[u8], first: u32) -> Result<Week, WeekError>
    ensures { MakesWeek bytes.now first result }
{
    let counted = hourly::tallies(bytes, Products::All)?;
    week_in(counted.table, counted.found, first)
}

// The hours of an answer: seven rows of twenty-four; where there is no week every hour is missing.
pub fn hours_in(weekly: Result<Week, WeekError>) -> Week
    ensures { HoldsHours weekly result }
{
    match weekly {
        Ok(week) => week,
        Err(_) => [[Hour::Missing; 24]; 7],
    }
}

// One hour more.
fn with_hour(seen: Seen, hour: Hour) -> Seen
    requires { Room seen (says_hour hour) }
    ensures { result ≡ with_hour seen (says_hour hour) }
{
    match hour {
        Hour::Measured(f) => Seen {
            sum: seen.sum + f.sum as u64,
            covered: seen.covered + 1,
            idle: seen.idle,
        },
        Hour::Idle => Seen {
            idle: seen.idle + 1,
            ..seen
        },
        Hour::Missing => seen,
    }
}

// Worked with a measured hour, a holiday with twenty-four idle ones, else unknown.
fn kind_by(covered: u32, idle: u32) -> Kind
    ensures { result ≡ kind_by covered idle }
{
    if 0 < covered {
        return Kind::Worked;
    }
    if idle == 24 {
        return Kind::Holiday;
    }
    Kind::Unknown
}

// What a day was, by its hours.
fn day_from(row: Row) -> Day
    requires { Each Whole (map says_hour row) }
    ensures { result ≡ day_from (map says_hour row) }
{
    let mut seen = Seen::default();
    for hour in row {
        seen = with_hour(seen, hour);
    }
    Day {
        kind: kind_by(seen.covered, seen.idle),
        covered: seen.covered,
        sum: seen.sum,
    }
}

// The seven days of a week.
fn days_from(week: Week) -> [Day; 7]
    requires { Each (Each Whole) (says_hours week) }
    ensures { result ≡ map day_from (says_hours week) }
{
    let mut days = [Day::default(); 7];
    for d in 0..7 {
        days[d] = day_from(week[d]);
    }
    days
}

// The days of a journal's week from a first hour on: the journal's refusals, then R21.
pub fn days_of(bytes: &[u8], first: u32) -> Result<[Day; 7], WeekError>
    ensures { MakesDays bytes.now first result }
{
    let week = week_of(bytes, first)?;
    Ok(days_from(week))
}
