// The capacities of a contract in kW. Only `Capacities::new` makes them.
ghost use Rattle.std.specs.Prelude.{◌+◌, ◌≤◌};

mod methods;

#[derive(Clone, Copy)]
pub struct Capacities {
    regular: u32,
    semi_peak: u32,
    saturday: u32,
    off_peak: u32,
    ghost some: { 1 ≤ regular },
    ghost bounded: { regular + semi_peak + saturday + off_peak ≤ 40000 },
}
