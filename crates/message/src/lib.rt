// What stands in a body: the address form, the operation code and the data.
#![tactic(auto)]

ghost use Rattle.std.specs.Prelude.{◌≡◌, ◌≤◌, length};
ghost use Rattle.paper.specs.Answer.{told};
ghost use Rattle.frame.specs.Puts.{PutsBytes};
ghost use Rattle.message.specs.Message.{serial_of, address_bytes, proper, framable_of};
ghost use Rattle.message.specs.Says.{says_built, handed, Splits, Builds};

// The address form: an address, or an extended address, which is a serial number.
#[derive(Clone, Copy, Debug, PartialEq, Eq)]
pub enum Form {
    Address(u8),
    Serial(u32),
}

impl Form {
    // The greatest serial number: three bytes.
    pub const SERIAL_MOST: u32 = 16777215;
}

// The parts of a body; its data stand from place `from` up to place `to`.
#[derive(Clone, Copy, Debug, PartialEq, Eq)]
pub struct Parts {
    pub form: Form,
    pub operation: u8,
    pub from: usize,
    pub to: usize,
}

// Why a finished body has no parts: it is too short.
#[derive(Clone, Copy, Debug, PartialEq, Eq)]
pub enum SplitError {
    R6,
}

// A body of len bytes, without its check; the places past the body are 0.
#[derive(Clone, Copy)]
pub struct Body {
    pub bytes: [u8; 254],
    pub len: usize,
}

// Why no body is built: a form that its bytes would not give back, which has no number in document 01, or R14.
#[derive(Clone, Copy, Debug, PartialEq, Eq)]
pub enum BuildError {
    Improper,
    R14,
}

// The serial of three bytes.
fn serial_of(low: u8, middle: u8, high: u8) -> u32
    ensures { result ≡ serial_of low middle high }
{
    (low as u32) + 256 * (middle as u32) + 65536 * (high as u32)
}

// Splits a finished body into its parts.
pub fn split_body(body: &[u8]) -> Result<Parts, SplitError>
    ensures { Splits body.now result }
{
    if body.len() < 3 {
        return Err(SplitError::R6);
    }
    let to = body.len() - 1;
    if body[0] != 0 {
        return Ok(Parts {
            form: Form::Address(body[0]),
            operation: body[1],
            from: 2,
            to,
        });
    }
    if body.len() < 6 {
        return Err(SplitError::R6);
    }
    Ok(Parts {
        form: Form::Serial(serial_of(body[1], body[2], body[3])),
        operation: body[4],
        from: 5,
        to,
    })
}

// Puts the address bytes of a form, and answers the place after them.
fn put_address(out: &mut [u8], form: Form) -> usize
    requires { 4 ≤ length out.old }
    ensures { PutsBytes (address_bytes form) out.old out.new 0 result }
{
    match form {
        Form::Address(a) => {
            out[0] = a;
            1
        }
        Form::Serial(n) => {
            out[0] = 0;
            out[1] = (n % 256) as u8;
            out[2] = (n / 256 % 256) as u8;
            out[3] = (n / 65536 % 256) as u8;
            4
        }
    }
}

// Whether a form's bytes give it back.
fn proper(form: Form) -> bool
    ensures { result ≡ proper form }
{
    match form {
        Form::Address(a) => a != 0,
        Form::Serial(n) => n <= Form::SERIAL_MOST,
    }
}

// Address, operation code and data as a body, if it can be framed.
fn framable_body(form: Form, operation: u8, values: &[u8]) -> Result<Body, BuildError>
    ensures { says_built result ≡ told handed (framable_of form operation values.now) }
{
    let mut bytes = [0u8; 254];
    let head = put_address(&mut bytes, form);
    if 253 - head < values.len() {
        return Err(BuildError::R14);
    }
    let len = head + 1 + values.len();
    bytes[head] = operation;
    bytes[head + 1..len].copy_from_slice(values);
    if !frame::framable(&bytes[..len]) {
        return Err(BuildError::R14);
    }
    Ok(Body { bytes, len })
}

// Builds a body of address, operation code and data, without its check.
pub fn build_body(form: Form, operation: u8, values: &[u8]) -> Result<Body, BuildError>
    ensures { Builds form operation values.now result }
{
    if !proper(form) {
        return Err(BuildError::Improper);
    }
    framable_body(form, operation, values)
}
