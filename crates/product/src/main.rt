// Reads a product alone on a line and then a journal on standard input, and prints every hour from first to last for that product, or the one line of a refusal.
#![tactic(auto)]

ghost use Rattle.std.specs.Prelude.{◌≡◌, length};
ghost use Rattle.chosen.specs.Choice.{no_product, product_line};
ghost use Rattle.chosen.specs.Says.{says_choice};
ghost use Rattle.heading.specs.Heading.{Inside, said_of};

use heading::Found;

// Standard output.
const STDOUT_FILENO: i32 = 1;

// The product of the first line; R2 where it is none, and where there is no first line.
fn choice_in(found: Found, buffer: &[u8]) -> Option<u8>
    requires { Inside found (length buffer.now) }
    ensures { says_choice result ≡ said_of product_line no_product found buffer.now }
{
    match found {
        Found::Line { from, to } => chosen::product_line(&buffer[from..to]),
        Found::More | Found::Nothing => None,
    }
}

// The product and the journal, and what is printed for them.
fn main(rt: HostRuntime) {
    let mut bytes = [0u8; journal::READ];
    let headed = heading::read_heading(rt.stdin(), &mut bytes);
    let choice = choice_in(headed.found, &bytes);
    let n = heading::read_journal(&mut bytes, headed);
    let out = chosen::report(choice, &bytes, n);
    io::write_all(STDOUT_FILENO, &out.bytes[..out.len]);
}
