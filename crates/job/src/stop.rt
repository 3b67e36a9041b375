// Why a job stopped.
ghost use Rattle.std.specs.Prelude.{◌≡◌};
ghost use Rattle.job.specs.Stopping.{refused_whole};

use bill::Unprinted;
use calendar::Refusal;

// A refusal with the line that it names, or a line that is not carried out yet. Where no line is named the number is 0, as in the print, in the definitions
// and in the tests: an `Option` would be turned into that number for each of them.
#[derive(Clone, Copy, PartialEq, Eq, Debug)]
pub enum Stop {
    Refused { refusal: Refusal, line: u32 },
    Unsupported { line: u32 },
}

// A refusal that names no line.
impl From<Refusal> for Stop {
    ghost from_gives = { λ refusal stop. stop ≡ refused_whole refusal };

    fn from(refusal: Refusal) -> Stop {
        Stop::Refused { refusal, line: 0 }
    }
}

// A print that was refused names no line.
impl From<Unprinted> for Stop {
    ghost from_gives = { λ unprinted stop. stop ≡ refused_whole unprinted.refusal };

    fn from(unprinted: Unprinted) -> Stop {
        Stop::from(unprinted.refusal)
    }
}
