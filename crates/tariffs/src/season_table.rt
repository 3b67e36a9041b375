// A table with a row for each season.
ghost use Rattle.std.specs.Prelude.{◌≡◌};
ghost use Rattle.tariffs.specs.SeasonTables.{row};

use calendar::Season;

#[derive(Clone, Copy)]
pub(crate) struct BySeason<T> {
    pub(crate) summer: T,
    pub(crate) other_months: T,
}

impl<T: Copy> BySeason<T> {
    // The row of a season.
    pub(crate) fn of(&self, season: Season) -> T
        ensures { result ≡ row self.now season }
    {
        match season {
            Season::Summer => self.summer,
            Season::OtherMonths => self.other_months,
        }
    }
}
