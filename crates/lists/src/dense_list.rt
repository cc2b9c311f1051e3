ghost use Rattle.std.specs.Prelude.{◌≤◌, length};

use crate::dense::{get_at, push_at, remove_at, set_at};
use crate::refusal::Refusal;

// A list over given places, as the rule book has it. Its elements stand at the places 0 to `len - 1`,
// with no gap.
#[derive(Drop)]
pub struct DenseList<'a, T> {
    places: &'a mut [T],
    len: usize,
    ghost inside: { len ≤ length places.now },
}

// That a call keeps the room, and that a refused one changes nothing, stands in each contract: it sets
// the list after beside the list before, which no ghost field of one list can.
impl<'a, T: Copy> DenseList<'a, T> {
    ghost use Rattle.std.specs.Prelude.{◌≡◌, [], ◌∷◌, ◌++◌, length, if◌then◌else◌, nat_lt, Ok, Err, OnOk, OnErr, slice_set};
    ghost use Rattle.std.specs.List.{slice_get};
    ghost use Rattle.lists.specs.declared.refusal.Refusal.TheVariants.{NoSuchPlace, NoRoom};
    ghost use Rattle.lists.specs.Dense.{items, room, last_into_gap, GapFilled, IsUnchanged};

    // The empty list. What the places hold is not looked at.
    pub fn new(places: &'a mut [T]) -> DenseList<'a, T>
        ensures list { items result ≡ [] }
        ensures room { room result ≡ length places.old }
    {
        DenseList { places, len: 0 }
    }

    pub fn as_slice(&self) -> &[T]
        ensures { result.now ≡ items self.now }
    {
        &self.places[..self.len]
    }

    pub fn len(&self) -> usize
        ensures { result ≡ length (items self.now) }
    {
        self.as_slice().len()
    }

    // The element at `at`, or none past the end.
    pub fn get(&self, at: usize) -> Option<T>
        ensures { result ≡ slice_get (items self.now) at }
    {
        get_at(self.places, self.len, at)
    }

    // Puts `x` at the end; refused where no place is left.
    pub fn push(&mut self, x: T) -> Result<(), Refusal>
        ensures answer { result ≡ (if nat_lt (length (items self.old)) (room self.old) then Ok tt else Err NoRoom) }
        ensures list { OnOk result (items self.new ≡ items self.old ++ x ∷ []) }
        ensures refused { OnErr result (IsUnchanged self.old self.new) }
        ensures kept { room self.new ≡ room self.old }
    {
        self.len = push_at(self.places, self.len, x)?;
        Ok(())
    }

    // Takes out the element at `at`: the last one moves into the gap, and is answered unless it was
    // the one taken out. Refused past the end.
    pub fn remove(&mut self, at: usize) -> Result<Option<T>, Refusal>
        ensures answer { result ≡ (if nat_lt at (length (items self.old)) then Ok (slice_get (items self.new) at) else Err NoSuchPlace) }
        ensures list { OnOk result (items self.new ≡ last_into_gap (items self.old) at) }
        ensures law { OnOk result (GapFilled (items self.old) at (items self.new)) }
        ensures refused { OnErr result (IsUnchanged self.old self.new) }
        ensures kept { room self.new ≡ room self.old }
    {
        let moved = remove_at(self.places, self.len, at)?;
        self.len -= 1;
        Ok(moved)
    }

    // Writes `x` over the element at `at`; refused past the end.
    pub fn set(&mut self, at: usize, x: T) -> Result<(), Refusal>
        ensures answer { result ≡ (if nat_lt at (length (items self.old)) then Ok tt else Err NoSuchPlace) }
        ensures list { items self.new ≡ slice_set (items self.old) at x }
        ensures refused { OnErr result (IsUnchanged self.old self.new) }
        ensures kept { room self.new ≡ room self.old }
    {
        set_at(self.places, self.len, at, x)
    }

    pub fn clear(&mut self)
        ensures list { items self.new ≡ [] }
        ensures kept { room self.new ≡ room self.old }
    {
        self.len = 0;
    }
}
