ghost use Rattle.std.specs.Prelude.{◌≡◌, ◌++◌, Some, codes, decimal};
ghost use Rattle.lists.specs.Refusals.{number_of};

use std::error::Error;
use std::fmt;

// Why a call was refused: one case for each condition that a call checks.
#[derive(Clone, Copy, PartialEq, Eq, Debug)]
pub enum Refusal {
    // The place is not in the list, or the bucket and the place make no position.
    NoSuchPlace = 12,
    // The list has no place left.
    NoRoom = 14,
}

// The number by which the formats name the refusal.
impl From<Refusal> for u32 {
    ghost from_gives = { λ refusal number. number ≡ number_of refusal };

    fn from(refusal: Refusal) -> u32 {
        refusal as u32
    }
}

impl fmt::Display for Refusal {
    ghost output = { λ refusal. Some (codes "no " ++ decimal (number_of refusal)) };

    fn fmt<W: fmt::Write>(&self, f: &mut fmt::Formatter<W>) -> fmt::Result {
        write!(f, "no {}", u32::from(*self))
    }
}

impl Error for Refusal {}
