// What the product program prints for a first line and a journal.
#![tactic(auto)]

ghost use Rattle.std.specs.Prelude.{None};
ghost use Rattle.chosen.specs.Promises.{ReadsProduct, ReportsChosen};

use hourly::Products;
use report::{ENOUGH, Printout};

// The greatest product.
const MOST: u32 = journal::PRODUCT_MOST;

// The product alone on a line, whose LF is left out; a line that has none is R2.
pub fn product_line(line: &[u8]) -> Option<u8>
    ensures { ReadsProduct line.now result }
{
    let Some((product, next)) = text::number_at(line, 0, MOST) else {
        return None;
    };
    if next < line.len() {
        return None;
    }
    Some(product as u8)
}

// What is printed where the first line is no product: the journal's refusal, else R2 with 0.
fn without_product(bytes: &[u8; journal::READ], n: usize) -> Printout<ENOUGH>
    ensures { ReportsChosen None bytes.now n result }
{
    let size = n.min(journal::READ);
    match hourly::tallies(&bytes[..size], Products::All) {
        Ok(_) => report::refusal_line(2, 0),
        Err(refusal) => report::refusal_report(refusal),
    }
}

// What the product program prints for a first line and a journal, which the first n of the bytes read are: every hour for that product, or the line of a refusal.
pub fn report(choice: Option<u8>, bytes: &[u8; journal::READ], n: usize) -> Printout<ENOUGH>
    ensures { ReportsChosen choice bytes.now n result }
{
    match choice {
        Some(product) => report::report(bytes, n, Products::One(product)),
        None => without_product(bytes, n),
    }
}
