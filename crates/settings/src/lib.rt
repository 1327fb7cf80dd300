// The settings, the table of their ranges, and the check that names the first bad one.
#![tactic(auto)]

ghost use Rattle.std.specs.Prelude.{◌≡◌, map};
ghost use Rattle.settings.specs.Table.{table, least_level, most_level};
ghost use Rattle.settings.specs.Columns.{value_of, range_of, bounds};
ghost use Rattle.settings.specs.Says.{Checks, IsDefault};

#[derive(Clone, Copy)]
pub struct Settings {
    pub algorithm: u32,
    pub capacity: u32,
    pub dose: u32,
    pub pc: u32,
    pub pf: u32,
    pub level: u32,
    pub p7: u32,
    pub p8: u32,
    pub p9: u32,
    pub p11: u32,
    pub o: u32,
    pub in1: u32,
    pub in2: u32,
    pub in3: u32,
    pub address: u32,
    pub serial: u32,
    pub point: u32,
    pub product: u32,
}

// Why a set is refused: R2 names the row of the first bad setting (1 is the first).
#[derive(Clone, Copy, Debug, PartialEq, Eq)]
pub enum SettingError {
    R2(u32),
}

// How many settings there are.
const ROWS: usize = 18;

// A least and a greatest value.
#[derive(Clone, Copy)]
struct Range {
    from: u32,
    to: u32,
}

// Each setting's fixed range, in the order of the check; a bound that depends on other settings is laid over it.
const TABLE: [Range; ROWS] = [
    Range { from: 0, to: 3 }, // algorithm
    Range {
        from: 1,
        to: Settings::CAPACITY_MOST,
    }, // capacity C
    Range {
        from: 1,
        to: Settings::CAPACITY_MOST,
    }, // dose D, at most C
    Range {
        from: 0,
        to: Settings::CAPACITY_MOST,
    }, // coarse lead Pc, at most D
    Range {
        from: 0,
        to: Settings::CAPACITY_MOST,
    }, // fine lead Pf, at most Pc
    Range {
        from: 1,
        to: Settings::CAPACITY_MOST,
    }, // level M, by algorithm, C and D
    Range {
        from: 4,
        to: Settings::FILTER_MOST,
    }, // filter coarse p7
    Range {
        from: 4,
        to: Settings::FILTER_MOST,
    }, // filter fine p8, at least p7
    Range { from: 1, to: 63 }, // settle time p9
    Range { from: 0, to: 1 }, // sum p11
    Range { from: 0, to: 1 }, // both gates at once o
    Range { from: 0, to: 1 }, // level in1
    Range { from: 0, to: 1 }, // level in2
    Range { from: 0, to: 1 }, // level in3
    Range { from: 1, to: 127 }, // address
    Range {
        from: 0,
        to: 16777215,
    }, // serial
    Range { from: 0, to: 3 }, // decimal point
    Range {
        from: 0,
        to: Settings::PRODUCT_MOST,
    }, // product code
];

impl Settings {
    // The greatest capacity.
    pub const CAPACITY_MOST: u32 = 99999;

    // The most samples that a filter takes the mean of.
    pub const FILTER_MOST: u32 = 128;

    // The greatest product code.
    pub const PRODUCT_MOST: u32 = 255;

    // The values of the settings, in the table's order.
    fn values(self) -> [u32; ROWS]
        ensures { result ≡ map value_of (table self) }
    {
        [
            self.algorithm,
            self.capacity,
            self.dose,
            self.pc,
            self.pf,
            self.level,
            self.p7,
            self.p8,
            self.p9,
            self.p11,
            self.o,
            self.in1,
            self.in2,
            self.in3,
            self.address,
            self.serial,
            self.point,
            self.product,
        ]
    }

    // The table with the bounds that depend on other settings laid over it.
    fn ranges(self) -> [Range; ROWS]
        ensures { result ≡ map range_of (table self) }
    {
        let mut ranges = TABLE;
        ranges[2].to = self.capacity;
        ranges[3].to = self.dose;
        ranges[4].to = self.pc;
        ranges[5] = self.level_range(ranges[5]);
        ranges[7].from = self.p7;
        ranges
    }

    // The level's range: 1..C/4 rounded down in AL0 and AL1, D..C in AL2 and AL3.
    fn level_range(self, fixed: Range) -> Range
        requires { fixed.from ≡ 1 }
        ensures { result ≡ bounds (least_level self) (most_level self) }
    {
        if self.algorithm <= 1 {
            Range {
                to: self.capacity / 4,
                ..fixed
            }
        } else {
            Range {
                from: self.dose,
                to: self.capacity,
            }
        }
    }

    // Checks the settings in the table's order; the first that is out of its range is named.
    pub fn check(self) -> Result<(), SettingError>
        ensures { Checks self result }
    {
        let values = self.values();
        let ranges = self.ranges();
        for (i, &value) in values.iter().enumerate() {
            let range = ranges[i];
            if (value < range.from) | (range.to < value) {
                return Err(SettingError::R2(i as u32 + 1));
            }
        }
        Ok(())
    }
}

impl Default for Settings {
    // The default set: AL0, C 10,000, D 100, M 100.
    fn default() -> Settings
        ensures { IsDefault result }
    {
        Settings {
            algorithm: 0,
            capacity: 10000,
            dose: 100,
            pc: 0,
            pf: 0,
            level: 100,
            p7: 4,
            p8: 4,
            p9: 1,
            p11: 0,
            o: 0,
            in1: 0,
            in2: 0,
            in3: 0,
            address: 1,
            serial: 0,
            point: 0,
            product: 0,
        }
    }
}
