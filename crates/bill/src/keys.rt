// The keys of a printed bill, in the order of its lines.
pub const CODE: &[u8] = b"code";

pub const SERIAL: &[u8] = b"serial";

pub const ENERGY_PEAK: &[u8] = b"q1";

pub const ENERGY_SEMI_PEAK: &[u8] = b"q2";

pub const ENERGY_SATURDAY: &[u8] = b"q3";

pub const ENERGY_OFF_PEAK: &[u8] = b"q4";

pub const ENERGY: &[u8] = b"energy";

pub const BASIC: &[u8] = b"basic";

pub const EXCESS_PEAK: &[u8] = b"x1";

pub const EXCESS_SEMI_PEAK: &[u8] = b"x2";

pub const EXCESS_SATURDAY: &[u8] = b"x3";

pub const EXCESS_OFF_PEAK: &[u8] = b"x4";

pub const EXCESS: &[u8] = b"excess";

pub const CREDIT: &[u8] = b"credit";

pub const EXTRA: &[u8] = b"extra";

pub const DUE: &[u8] = b"due";
