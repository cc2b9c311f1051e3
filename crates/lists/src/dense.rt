// The work on a dense list, over places and a length: the list stands in the first `len` places.
// It serves `DenseList` and the tray's buckets, and can serve a list in a part of a larger table, whose
// length lies elsewhere: a struct that borrows the part cannot, since its maker's proof does not know
// what was written there. Writes are a test and an index, and no `get_mut`: after that a proof knows
// none of the elements.
ghost use Rattle.std.specs.Prelude.{◌≡◌, ◌+◌, ◌-◌, [], ◌∷◌, ◌++◌, length, take, if◌then◌else◌, nat_lt, Ok, Err, OnOk, OnErr, slice_set};
ghost use Rattle.std.specs.List.{slice_get};
ghost use Rattle.lists.specs.Dense.{has_place, last_into_gap, GapFilled};
ghost use Rattle.lists.specs.declared.refusal.Refusal.TheVariants.{NoSuchPlace, NoRoom};

use crate::refusal::Refusal;

// The element at `at`, or none past the end. By the slice's `get`, and not by an iterator's `nth`, which
// is a loop and takes twice the time.
pub fn get_at<T: Copy>(places: &[T], len: usize, at: usize) -> Option<T>
    ensures { result ≡ slice_get (take len places.now) at }
{
    places[..len.min(places.len())].get(at).copied()
}

// Puts `x` at the end, and answers the new length.
pub fn push_at<T: Copy>(places: &mut [T], len: usize, x: T) -> Result<usize, Refusal>
    ensures answer { result ≡ (if nat_lt len (length places.old) then Ok (len + 1) else Err NoRoom) }
    ensures list { OnOk result (take (len + 1) places.new ≡ take len places.old ++ x ∷ []) }
    ensures refused { OnErr result (places.new ≡ places.old) }
{
    if len >= places.len() {
        return Err(Refusal::NoRoom);
    }
    places[len] = x;
    Ok(len + 1)
}

// Takes out the element at `at`: the last one moves into the gap, and is answered unless it was the
// one taken out.
#[tactic(auto, using(crate::proofs::Gaps::gap_filled, crate::proofs::Gaps::last_cut, crate::proofs::Gaps::gap_law))]
pub fn remove_at<T: Copy>(places: &mut [T], len: usize, at: usize) -> Result<Option<T>, Refusal>
    ensures answer { result ≡ (if has_place places.old len at then Ok (slice_get (take (len - 1) places.new) at) else Err NoSuchPlace) }
    ensures list { OnOk result (take (len - 1) places.new ≡ last_into_gap (take len places.old) at) }
    ensures law { OnOk result (GapFilled (take len places.old) at (take (len - 1) places.new)) }
    ensures refused { OnErr result (places.new ≡ places.old) }
{
    if at >= len || len > places.len() {
        return Err(Refusal::NoSuchPlace);
    }
    let last = len - 1;
    if at == last {
        return Ok(None);
    }
    let moved = places[last];
    places[at] = moved;
    Ok(Some(moved))
}

// Writes `x` over the element at `at`.
#[tactic(auto, using(crate::proofs::Gaps::front_steps))]
pub fn set_at<T: Copy>(places: &mut [T], len: usize, at: usize, x: T) -> Result<(), Refusal>
    ensures answer { result ≡ (if has_place places.old len at then Ok tt else Err NoSuchPlace) }
    ensures list { OnOk result (take len places.new ≡ slice_set (take len places.old) at x) }
    ensures refused { OnErr result (places.new ≡ places.old) }
{
    if at >= len || len > places.len() {
        return Err(Refusal::NoSuchPlace);
    }
    places[at] = x;
    Ok(())
}
