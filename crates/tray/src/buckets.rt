ghost use Rattle.std.specs.Prelude.{◌≡◌, ◌<◌, ◌≤◌, ℕ, [], ◌∷◌, ◌++◌, length, if◌then◌else◌, nat_lt, slice_index_or, Ok, Err, OnOk, OnErr};
ghost use Rattle.std.specs.List.{slice_get};
ghost use Rattle.lists.specs.Dense.{last_into_gap};
ghost use Rattle.lists.specs.Positions.{position, bucket_of, local_of};
ghost use Rattle.lists.specs.declared.refusal.Refusal.TheVariants.{NoSuchPlace, NoRoom};
ghost use Rattle.tray.specs.Buckets.{list_of, IsRelisted};

use lists::dense::{push_at, remove_at};
use lists::refusal::Refusal;
use lists::solver_contact_graph::{ContactRef, GENERIC_BUCKET, GraphPos};
use std::array;
use std::marker::Model;

const BUCKETS: usize = 130;

// How many references a bucket has room for.
const ROOM: usize = 8;

// The list of one bucket: a dense list in the first `len` of its places. The rule book has buckets use
// the list of `lists`, so it is no `ArrayVec`; and no `DenseList`, since the checker does not cover an
// array of structs that hold a `&mut`.
#[derive(Drop)]
pub struct Bucket {
    places: [ContactRef; ROOM],
    len: usize,
}

impl Model for Bucket {
    ghost use Rattle.std.specs.Prelude.{◌≤◌, List, take};
    ghost use Rattle.lists.specs.declared.solver_contact_graph.ContactRef.{ContactRef};

    ghost Value = { List ContactRef };

    ghost view = { λ b. take b.len b.places };

    ghost invariant = { λ b. b.len ≤ 8 };
}

impl Bucket {
    pub fn as_slice(&self) -> &[ContactRef]
        ensures list { result.now ≡ self.now }
        ensures room { length result.now ≤ 8 }
    {
        &self.places[..self.len]
    }
}

// One list of references for each bucket.
#[derive(Drop)]
pub struct Buckets {
    lists: [Bucket; BUCKETS],
}

impl Buckets {
    pub fn new() -> Buckets
        ensures { (b : ℕ) → list_of result b ≡ [] }
    {
        let nothing = ContactRef {
            pair: 0,
            ordinal: 0,
        };
        Buckets {
            lists: array::from_fn(|_| Bucket {
                places: [nothing; ROOM],
                len: 0,
            }),
        }
    }

    // The lists, in the order of the buckets.
    pub fn lists(&self) -> &[Bucket]
        ensures order { (b : ℕ) → list_of self.now b ≡ slice_index_or result.now b [] }
        ensures all { length result.now ≡ 130 }
    {
        &self.lists
    }

    // The bucket's list. Past the last bucket there is none.
    pub fn list(&self, bucket: u32) -> &[ContactRef]
        ensures list { result.now ≡ list_of self.now bucket }
        ensures past { 129 < bucket → result.now ≡ [] }
        ensures room { length result.now ≤ 8 }
    {
        match self.lists.get(bucket as usize) {
            Some(list) => list.as_slice(),
            None => &[],
        }
    }

    // Puts the reference at the end of the bucket's list, and answers its position.
    pub fn insert(&mut self, bucket: u32, contact: ContactRef) -> Result<GraphPos, Refusal>
        ensures answer { result ≡ (if nat_lt (length (list_of self.old bucket)) 8 then position bucket (length (list_of self.old bucket)) else Err NoRoom) }
        ensures lists { OnOk result (IsRelisted self.old self.new bucket (list_of self.old bucket ++ contact ∷ [])) }
        ensures refused { OnErr result (self.new ≡ self.old) }
    {
        let local = self.list(bucket).len() as u32;
        let pos = GraphPos::new(bucket, local)?;
        let list = &mut self.lists[bucket as usize];
        list.len = push_at(&mut list.places, list.len, contact)?;
        Ok(pos)
    }

    // Takes out the reference at the position, and answers the one that moved into the gap.
    pub fn remove(&mut self, pos: GraphPos) -> Result<Option<ContactRef>, Refusal>
        ensures answer { result ≡ (if nat_lt (local_of pos) (length (list_of self.old (bucket_of pos))) then Ok (slice_get (list_of self.new (bucket_of pos)) (local_of pos)) else Err NoSuchPlace) }
        ensures lists { OnOk result (IsRelisted self.old self.new (bucket_of pos) (last_into_gap (list_of self.old (bucket_of pos)) (local_of pos))) }
        ensures refused { OnErr result (self.new ≡ self.old) }
    {
        // A test and an index, and no `get_mut`: after that a proof knows none of the lists.
        let bucket = pos.bucket();
        if bucket > GENERIC_BUCKET {
            return Err(Refusal::NoSuchPlace);
        }
        let list = &mut self.lists[bucket as usize];
        let moved = remove_at(&mut list.places, list.len, pos.local() as usize)?;
        list.len -= 1;
        Ok(moved)
    }
}
