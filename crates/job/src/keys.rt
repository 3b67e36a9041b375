// The keys of a job's lines, with the printer's own key for the code.
pub use bill::keys::CODE;

pub const MONTH: &[u8] = b"month";

pub const TARIFF: &[u8] = b"tariff";

pub const CAPACITIES: &[u8] = b"caps";

pub const PROGRAMME: &[u8] = b"programme";

pub const FLEXIBLE: &[u8] = b"flex";

pub const LEAD: &[u8] = b"lead";

pub const OFF_PEAK: &[u8] = b"off";

pub const CALL: &[u8] = b"call";

pub const RUN: &[u8] = b"run";
