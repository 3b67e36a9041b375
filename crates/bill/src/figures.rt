// Worked figures, shown from the definitions that the contracts cite.
ghost use Rattle.std.specs.Prelude.{◌≡◌, true, length};
ghost use Rattle.bill.specs.Figures.{every, figures};

// How many worked figures there are. All of them come out of the definitions as they should.
pub fn figures_shown() -> usize
    ensures count { result ≡ length figures }
    ensures hold { every figures ≡ true }
{
    19
}
