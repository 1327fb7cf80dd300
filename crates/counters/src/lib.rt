// The counters, and the record of a completed dose.
#![tactic(auto)]

ghost use Rattle.std.specs.Prelude.{◌≡◌, ◌+◌, ◌%◌};
ghost use Rattle.counters.specs.Says.{Counts, Records};

use dosing::Dose;

// The number of doses, and the sum of their amounts.
#[derive(Clone, Copy, Debug, Default, PartialEq, Eq)]
pub struct Counters {
    pub count: u32,
    pub total: u32,
}

// The record of a completed dose: the count after it, the amount, 1 if Settle ended stable else 0, and the product.
#[derive(Clone, Copy, Debug, PartialEq, Eq)]
pub struct Record {
    pub count: u32,
    pub amount: u32,
    pub settled: u32,
    pub product: u32,
}

impl Counters {
    // The greatest count; 0 follows it.
    pub const COUNT_MOST: u32 = 999999;
    // The greatest total; 0 follows it.
    pub const TOTAL_MOST: u32 = 999999999;
}

// n and more, where 0 follows most.
fn wrapped(n: u32, more: u32, most: u32) -> u32
    ensures { result ≡ (n + more) % (most + 1) }
{
    let sum = u64::from(n) + u64::from(more);
    (sum % (u64::from(most) + 1)) as u32
}

// A completed dose adds 1 to the count and its amount to the total.
pub fn counters_after(n: Counters, dose: Option<Dose>) -> Counters
    ensures { Counts n dose result }
{
    match dose {
        None => n,
        Some(dose) => Counters {
            count: wrapped(n.count, 1, Counters::COUNT_MOST),
            total: wrapped(n.total, dose.amount, Counters::TOTAL_MOST),
        },
    }
}

// The record of a dose of a product, with the counters after it.
pub fn record_of(product: u32, after: Counters, amount: u32, settled: bool) -> Record
    ensures { Records product after amount settled result }
{
    Record {
        count: after.count,
        amount,
        settled: u32::from(settled),
        product,
    }
}
