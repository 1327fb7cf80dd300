// Reads a journal on standard input and prints every hour from first to last, or the one line of a refusal.
#![tactic(auto)]

use hourly::Products;

fn main() {
    let mut bytes = [0u8; journal::READ];
    let n = io::read_full(0, &mut bytes);
    let made = report::report(&bytes, n, Products::All);
    io::write_all(1, &made.bytes[..made.len]);
}
