// Holes in the dose numbers: whether a count follows the one before it, and the hours that a hole makes missing.
#![tactic(auto)]

ghost use Rattle.std.specs.Prelude.{◌≡◌, ◌-◌};
ghost use Rattle.holes.specs.Holes.{follows};
ghost use Rattle.holes.specs.Marks.{Adds};
ghost use Rattle.holes.specs.Promises.{GoesOn, MarksHole};

use journal::Line;

// The count that 0 follows.
const LAST_COUNT: u32 = 999999;

// Whether a count follows the one before it: by one, 0 after 999,999, or as a 1.
fn in_turn(before: u32, count: u32) -> bool
    ensures { result ≡ follows before count }
{
    if count == 1 {
        return true;
    }
    if before == LAST_COUNT {
        return count == 0;
    }
    if count == 0 {
        return false;
    }
    count - 1 == before
}

// Marks the places from one to another, both included, as far as there are any.
fn mark(holed: &mut [bool], from: usize, to: usize)
    ensures { Adds holed.old from to holed.new }
{
    let end = to.saturating_add(1).min(holed.len());
    let start = from.min(end);
    holed[start..end].fill(true);
}

// The place of an hour among those from the first on, 0 where it is before them.
fn place_of(first: u32, hour: u32) -> usize
    ensures { result ≡ hour - first }
{
    hour.saturating_sub(first) as usize
}

// Marks the hours, from the first on, of the hole that a line ends, if it is a D line whose count does not follow that of the D line before it, told by its hour and count.
pub fn mark_hole(holed: &mut [bool], first: u32, before: Option<(u32, u32)>, line: Line)
    ensures { MarksHole holed.old first before line holed.new }
{
    let Line::Dose { hour, count, .. } = line else {
        return;
    };
    let Some((earlier, last)) = before else {
        return;
    };
    if in_turn(last, count) {
        return;
    }
    if hour < first {
        return;
    }
    mark(holed, place_of(first, earlier), place_of(first, hour));
}

// The hour and count of the D line before the line that comes after this one.
#[tactic(auto, unfolding(crate::specs::Holes::dose_before))]
pub fn before_next(before: Option<(u32, u32)>, line: Line) -> Option<(u32, u32)>
    ensures { GoesOn before line result }
{
    match line {
        Line::Dose { hour, count, .. } => Some((hour, count)),
        Line::On { .. } => before,
    }
}
