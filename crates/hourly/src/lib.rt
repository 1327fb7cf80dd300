// The hours of a journal: one pass that counts its lines, and an hour's answer.
#![tactic(auto)]

ghost use Rattle.std.specs.Prelude.{◌≡◌, false, ◌-◌, ◌<◌, replicate};
ghost use Rattle.hourly.specs.Hours.{asks_for};
ghost use Rattle.hourly.specs.Tally.{no_tally, with_dose, counted, Sets, accepted_after};
ghost use Rattle.hourly.specs.Promises.{Counts, AnswersTally, AnswersAmong, AnswersHour};

use journal::{Line, Past, Refusal};
use text::LF;

// What a measured hour hands to the predictor: the sum and the largest amount, both exact, and the mean.
#[derive(Clone, Copy)]
pub struct Figures {
    pub sum: f64,
    pub largest: f64,
    pub mean: f64,
}

// The hour's answer.
#[derive(Clone, Copy)]
pub enum Hour {
    Measured(Figures),
    Idle,
    Missing,
}

// What the lines tell of one hour: the number of its doses, their sum, the largest amount, whether its H was there, and whether it lies in a hole.
#[derive(Clone, Copy)]
pub struct Tally {
    pub doses: u32,
    pub sum: f64,
    pub largest: u32,
    pub on: bool,
    pub holed: bool,
}

// Which doses are asked for: those of all products, or those of one.
// Not an Option: its None would read as doses of no product.
#[derive(Clone, Copy)]
pub enum Products {
    All,
    One(u8),
}

// What an accepted journal holds: the number of its lines with an hour, and the hours of the first and the last.
#[derive(Clone, Copy)]
pub struct Summary {
    pub lines: usize,
    pub first: u32,
    pub last: u32,
}

// What the pass over an accepted journal finds: what it holds, and the tallies of the hours from the first on.
#[derive(Clone, Copy)]
pub struct Tallied {
    pub found: Summary,
    pub table: [Tally; journal::SPAN],
}

// Every hour before the first line.
fn no_tallies() -> [Tally; journal::SPAN]
    ensures { result ≡ replicate 744 no_tally }
{
    [Tally {
        doses: 0,
        sum: 0.0f64,
        largest: 0,
        on: false,
        holed: false,
    }; journal::SPAN]
}

// One dose more: its amount is added up in f64.
fn with_dose(t: Tally, amount: u32) -> Tally
    requires { t.doses < 16384 }
    ensures { result ≡ with_dose t amount }
{
    Tally {
        doses: t.doses + 1,
        sum: t.sum + amount as f64,
        largest: t.largest.max(amount),
        ..t
    }
}

// Whether a dose of this product is asked for.
fn asks_for(products: Products, product: u32) -> bool
    ensures { result ≡ asks_for products product }
{
    match products {
        Products::All => true,
        Products::One(one) => product == one as u32,
    }
}

// One line more of the hour: a dose counts if its product is asked for.
fn with_line(products: Products, t: Tally, line: Line) -> Tally
    requires { t.doses < 16384 }
    ensures { result ≡ counted products t line }
{
    match line {
        Line::Dose {
            amount,
            product,
            ..
        } => {
            if asks_for(products, product) {
                return with_dose(t, amount);
            }
            t
        }
        Line::On { .. } => Tally { on: true, ..t },
    }
}

// No hour in a hole.
fn no_holes() -> [bool; journal::SPAN]
    ensures { result ≡ replicate 744 false }
{
    [false; journal::SPAN]
}

// The tallies with the marks set in them.
fn with_holes(table: [Tally; journal::SPAN], holed: [bool; journal::SPAN]) -> [Tally; journal::SPAN]
    ensures { Sets table holed result }
{
    let mut marked = table;
    for (k, &hole) in holed.iter().enumerate() {
        marked[k].holed = hole;
    }
    marked
}

// A journal that is accepted after its last line, with all tallies.
fn accepted(lines: usize, past: Past, table: [Tally; journal::SPAN]) -> Tallied
    ensures { result ≡ accepted_after lines past table }
{
    Tallied {
        found: Summary {
            lines,
            first: past.first,
            last: past.last,
        },
        table,
    }
}

// A whole journal of either form in one pass: R13, then line by line R10, R11, R12; each line that is taken is counted at its hour, if it is no dose of a product that is not asked for, and the hours of the hole that it ends are marked.
pub fn tallies(bytes: &[u8], products: Products) -> Result<Tallied, Refusal>
    ensures { Counts products bytes.now result }
{
    let size = bytes.len();
    if size > journal::ROOM {
        return Err(Refusal::R13);
    }
    let mut table = no_tallies();
    let mut holed = no_holes();
    let mut last = None;
    let mut past = journal::no_past();
    let head = journal::head_of(bytes);
    let mut at = head.bytes;
    let mut lines: usize = 0;
    'lines: loop {
        if at >= size {
            break 'lines Ok(accepted(lines, past, with_holes(table, holed)));
        }
        let number = head.lines + lines + 1;
        let fields = journal::fields_after(head.form, bytes[at]);
        if fields == 0 {
            break 'lines Err(Refusal::R10(number));
        }
        let mut got = [0u32; journal::FIELDS];
        let mut p = at + 1;
        'fields: for k in 0..fields {
            let Some((v, next)) = text::field_at(bytes, p, journal::MOST[k]) else {
                break 'lines Err(Refusal::R10(number));
            };
            got[k] = v;
            p = next;
        }
        if text::byte_at(bytes, p) != LF {
            break 'lines Err(Refusal::R10(number));
        }
        let line = journal::line_from(fields, got);
        let hour = journal::hour_in(line);
        if journal::out_of_order(past, hour) {
            break 'lines Err(Refusal::R11(number));
        }
        if journal::too_far(past, hour) {
            break 'lines Err(Refusal::R12(number));
        }
        past = journal::past_after(past, line);
        let place = (hour - past.first) as usize;
        table[place] = with_line(products, table[place], line);
        holes::mark_hole(&mut holed, past.first, last, line);
        last = holes::before_next(last, line);
        at = p + 1;
        lines += 1;
    }
}

// In a hole the hour is missing; else with an H it is measured if it has a dose, else idle, and without one it is missing.
pub fn hour_from(t: Tally) -> Hour
    ensures { AnswersTally t result }
{
    if t.holed {
        return Hour::Missing;
    }
    if !t.on {
        return Hour::Missing;
    }
    if t.doses == 0 {
        return Hour::Idle;
    }
    Hour::Measured(Figures {
        sum: t.sum,
        largest: t.largest as f64,
        mean: t.sum / t.doses as f64,
    })
}

// One hour of an accepted journal by its tallies; outside its hours it is missing.
pub fn hour_among(table: [Tally; journal::SPAN], found: Summary, hour: u32) -> Hour
    ensures { AnswersAmong table found hour result }
{
    if hour < found.first {
        return Hour::Missing;
    }
    if found.last < hour {
        return Hour::Missing;
    }
    match table.get((hour - found.first) as usize) {
        Some(&tally) => hour_from(tally),
        None => Hour::Missing,
    }
}

// The hour of a journal, or the journal's refusal.
pub fn hour_of(bytes: &[u8], products: Products, hour: u32) -> Result<Hour, Refusal>
    ensures { AnswersHour products bytes.now hour result }
{
    let counted = tallies(bytes, products)?;
    Ok(hour_among(counted.table, counted.found, hour))
}
