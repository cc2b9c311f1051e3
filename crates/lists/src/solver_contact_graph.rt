ghost use Rattle.std.specs.Prelude.{◌≡◌, ◌↔◌, IsTrue};
ghost use Rattle.lists.specs.Positions.{position, bucket_of, local_of, word_of, IsPresent, NamesOnePlace};

use crate::refusal::Refusal;

// The last bucket, of the manifolds that have a jointed body. Below it are one for each colour, and
// one for the manifolds that have none. Buckets go by number and not by an enum, since the number is
// a part of a position's word and the formats show it.
pub const GENERIC_BUCKET: u32 = 129;

// A manifold that the solver sees: its pair, and its ordinal among the pair's manifolds. Both are
// numbers, as the rule book has a reference be, and no borrows: the tables are given once.
#[derive(Clone, Copy, PartialEq, Eq, Debug)]
pub struct ContactRef {
    pub pair: u32,
    pub ordinal: u32,
}

// The places that a position can name in a bucket.
const LOCALS: u32 = 1 << 22;

// Where a manifold's reference stands: its bucket, and its place in the bucket's list. One word, with
// the place in its low 22 bits.
#[derive(Clone, Copy, PartialEq, Eq, Debug)]
pub struct GraphPos {
    word: u32,
}

impl GraphPos {
    // The manifold is in no bucket. It is a word like the others, and not an `Option`, since the rule
    // book has a manifold's entry hold one word for its position, with a value of its own for none.
    pub const NONE: GraphPos = GraphPos { word: u32::MAX };

    // Refused unless the bucket is at most 129 and the place fits its bits.
    #[tactic(auto, using(crate::proofs::Places::position_made, crate::proofs::Places::sole))]
    pub fn new(bucket: u32, local: u32) -> Result<GraphPos, Refusal>
        ensures value { result ≡ position bucket local }
        ensures law { NamesOnePlace bucket local result }
    {
        if bucket > GENERIC_BUCKET || local >= LOCALS {
            return Err(Refusal::NoSuchPlace);
        }
        Ok(GraphPos {
            word: bucket * LOCALS + local,
        })
    }

    pub fn is_some(self) -> bool
        ensures { IsTrue result ↔ IsPresent self }
    {
        self != Self::NONE
    }

    pub fn bucket(self) -> u32
        ensures { result ≡ bucket_of self }
    {
        self.word / LOCALS
    }

    pub fn local(self) -> u32
        ensures { result ≡ local_of self }
    {
        self.word % LOCALS
    }
}

// The position as one number: bucket × 4,194,304 + local.
impl From<GraphPos> for u32 {
    ghost from_gives = { λ pos word. word ≡ word_of pos };

    fn from(pos: GraphPos) -> u32 {
        pos.word
    }
}
