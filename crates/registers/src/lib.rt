// The registers of the box as MODBUS numbers them, 0 to 10.
#![tactic(auto)]

ghost use Rattle.registers.specs.Registers.{Lists};

use single::Words;

// What stands in the registers.
#[derive(Clone, Copy, Debug, PartialEq, Eq)]
pub struct Values {
    // The C3 weight and the C2 weight, each as the words of an f32.
    pub c3: Words,
    pub c2: Words,
    pub inputs: u8,
    pub outputs: u8,
    pub count: u32,
    pub total: u32,
    pub link: bool,
}

// The registers 0 to 10, numbers of two registers high word first.
pub fn words(v: Values) -> [u16; 11]
    ensures { Lists v result }
{
    [
        v.c3.high,
        v.c3.low,
        v.c2.high,
        v.c2.low,
        v.inputs as u16,
        v.outputs as u16,
        (v.count / 65536) as u16,
        (v.count % 65536) as u16,
        (v.total / 65536) as u16,
        (v.total % 65536) as u16,
        v.link as u16,
    ]
}
