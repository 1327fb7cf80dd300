// CRC-16, bit by bit.
ghost use Rattle.std.specs.Prelude.{◌≡◌};
ghost use Rattle.modbus.specs.Crc.{shift, enter};
ghost use Rattle.modbus.specs.Says.{Sums};

// One shift right; A001 is xored when a 1 falls out.
fn shift(c: u16) -> u16
    ensures { result ≡ shift c }
{
    if c % 2 == 1 { c / 2 ^ 0xA001 } else { c / 2 }
}

// A byte enters: it is xored into the low half, and eight shifts follow.
fn enter(c: u16, b: u8) -> u16
    ensures { result ≡ enter c b }
{
    let mut s = c ^ b as u16;
    for _ in 0..8u32 {
        s = shift(s);
    }
    s
}

// The CRC of bytes.
pub fn crc16(bytes: &[u8]) -> u16
    ensures { Sums bytes.now result }
{
    let mut c: u16 = 0xFFFF;
    for &b in bytes {
        c = enter(c, b);
    }
    c
}
