// The weight field of a reply: six decimal digits in three bytes, and CON.
#![tactic(auto)]

ghost use Rattle.std.specs.Prelude.{◌≡◌, true, ◌≤◌, ◌<◌, ◌^◌, nat_abs};
ghost use Rattle.field.specs.Field.{bcd_of, is_bcd, value_of, bit_of, has_bit, con_of, field_of, writable, signed, weight_of};
ghost use Rattle.field.specs.Says.{Sizes, WritesWeight, ReadsWeight, Echoes};

// What a field stands for.
#[derive(Clone, Copy, Debug, PartialEq, Eq)]
pub struct Weight {
    pub value: i32,
    pub stable: bool,
    pub over: bool,
    pub point: u8,
}

// The four bytes of a field, in the order in which they are sent.
#[derive(Clone, Copy, Debug, PartialEq, Eq)]
pub struct Field {
    pub low: u8,
    pub middle: u8,
    pub high: u8,
    pub con: u8,
}

// Why a weight is not written, or a field not read.
#[derive(Clone, Copy, Debug, PartialEq, Eq)]
pub enum FieldError {
    R16,
}

// How far a number is from 0, at every i32.
pub fn size_of(value: i32) -> u32
    ensures { Sizes value result }
{
    value.unsigned_abs()
}

// A size with its sign: minus 0 is 0.
fn with_sign(minus: bool, size: u32) -> i32
    requires { size < 2 ^ 24 }
    ensures { result ≡ signed minus size }
{
    if minus { -(size as i32) } else { size as i32 }
}

// A bit's worth where its flag is on.
#[tactic(auto, using(laws::specs::Pick::picks), unfolding(crate::specs::Field::bit_of))]
fn bit_of(on: bool, worth: u8) -> u8
    ensures { result ≡ bit_of on worth }
{
    if on { worth } else { 0 }
}

// Whether the bit of this worth is on.
#[tactic(auto, unfolding(crate::specs::Field::has_bit))]
fn has_bit(con: u8, worth: u8) -> bool
    requires { 0 < worth }
    ensures { result ≡ has_bit con worth }
{
    con / worth % 2 == 1
}

// Two digits as a byte.
#[tactic(auto, unfolding(crate::specs::Field::bcd_of))]
fn bcd_of(digits: u32) -> u8
    requires { digits < 100 }
    ensures { result ≡ bcd_of digits }
{
    (digits / 10 * 16 + digits % 10) as u8
}

// Whether both halves of a byte are digits.
#[tactic(auto, unfolding(crate::specs::Field::is_bcd))]
fn is_bcd(byte: u8) -> bool
    ensures { result ≡ is_bcd byte }
{
    byte % 16 <= 9 && byte / 16 <= 9
}

// The number of a byte's two halves.
#[tactic(auto, unfolding(crate::specs::Field::value_of))]
fn value_of(byte: u8) -> u32
    ensures { result ≡ value_of byte }
{
    u32::from(byte / 16 * 10 + byte % 16)
}

// CON of a weight.
fn con_of(v: Weight) -> u8
    requires { v.point ≤ 7 }
    ensures { result ≡ con_of v }
{
    bit_of(v.value < 0, 128) + bit_of(v.stable, 16) + bit_of(v.over, 8) + v.point
}

// The field of a weight that can be written, from its size.
fn field_of(v: Weight, size: u32) -> Field
    requires { (size ≡ nat_abs v.value) × (writable v ≡ true) }
    ensures { result ≡ field_of v }
{
    Field {
        low: bcd_of(size % 100),
        middle: bcd_of(size / 100 % 100),
        high: bcd_of(size / 10000),
        con: con_of(v),
    }
}

// What a field of digits stands for; bits 6 and 5 of CON are not looked at.
fn weight_of(f: Field) -> Weight
    ensures { result ≡ weight_of f }
{
    let size = value_of(f.low) + 100 * value_of(f.middle) + 10000 * value_of(f.high);
    Weight {
        value: with_sign(has_bit(f.con, 128), size),
        stable: has_bit(f.con, 16),
        over: has_bit(f.con, 8),
        point: f.con % 8,
    }
}

// The field of a weight, or R16.
pub fn write(weight: Weight) -> Result<Field, FieldError>
    ensures { WritesWeight weight result }
{
    let size = size_of(weight.value);
    if size > 999999 || weight.point > 7 {
        return Err(FieldError::R16);
    }
    Ok(field_of(weight, size))
}

// What a field stands for, or R16.
pub fn read(field: Field) -> Result<Weight, FieldError>
    ensures { ReadsWeight field result }
{
    if is_bcd(field.low) && is_bcd(field.middle) && is_bcd(field.high) {
        Ok(weight_of(field))
    } else {
        Err(FieldError::R16)
    }
}

// What was written, read back.
pub fn echo(weight: Weight) -> Result<Weight, FieldError>
    ensures { Echoes weight result }
{
    read(write(weight)?)
}
