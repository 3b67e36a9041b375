// The two price seasons.
#[derive(Clone, Copy, PartialEq, Eq, Debug)]
pub enum Season {
    Summer,
    OtherMonths,
}
