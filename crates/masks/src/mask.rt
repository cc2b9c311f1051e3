ghost use Rattle.std.specs.Prelude.{◌≡◌, ℕ, ◌↔◌, nat_lt, false, not, ◌&&◌, ◌||◌, ◌==◌, IsTrue};
ghost use Rattle.masks.specs.Masks.{holds, With, lowest_free, LowestFree, highest_free, HighestFree};

// A set of numbers below 128, as the bits of two words, in which the rule book keeps it: `n` is the
// bit `n % 64` of the word `n / 64`.
#[derive(Clone, Copy)]
pub struct Mask {
    words: [u64; 2],
}

impl Mask {
    // The empty set.
    pub const fn new() -> Mask
        ensures { (k : ℕ) → holds result k ≡ false }
    {
        Mask { words: [0, 0] }
    }

    // Whether `n` is in the set. No set has a number from 128 on.
    pub fn has(self, n: u32) -> bool
        ensures { result ≡ holds self n }
    {
        let [low, high] = self.words;
        let word = if n < 64 { low } else { high };
        n < 128 && (word >> (n % 64)) & 1 == 1
    }

    // The set with `n` in it, or none where `n` is not below 128.
    pub fn with(self, n: u32) -> Option<Mask>
        ensures { With self n result }
    {
        if n >= 128 {
            return None;
        }
        Some(self.union(Mask::only(n)))
    }

    // The set without `n`.
    #[tactic(auto, using(crate::proofs::Words::holds_minus, crate::proofs::Words::holds_past))]
    pub fn without(self, n: u32) -> Mask
        ensures { (k : ℕ) → holds result k ≡ (holds self k && not (k == n)) }
    {
        let [low, high] = self.words;
        let [only_low, only_high] = Mask::only(n).words;
        Mask {
            words: [low & !only_low, high & !only_high],
        }
    }

    // The set of `n` alone, and the empty one where `n` is not below 128. It serves `with` and `without`
    // in place of an index to the one word that changes: the compiled code would read both words back
    // right after it wrote one, and wait for it.
    #[tactic(auto, using(crate::proofs::Words::only_low, crate::proofs::Words::only_high, crate::proofs::Words::holds_nothing))]
    fn only(n: u32) -> Mask
        ensures { (k : ℕ) → holds result k ≡ (nat_lt n 128 && k == n) }
    {
        let bit = if n < 128 { 1 << (n % 64) } else { 0 };
        let words = if n < 64 { [bit, 0] } else { [0, bit] };
        Mask { words }
    }

    #[tactic(auto, using(crate::proofs::Words::holds_union))]
    pub fn union(self, other: Mask) -> Mask
        ensures { (k : ℕ) → holds result k ≡ (holds self k || holds other k) }
    {
        let [low, high] = self.words;
        let [other_low, other_high] = other.words;
        Mask {
            words: [low | other_low, high | other_high],
        }
    }

    #[tactic(auto, using(crate::proofs::Words::empty))]
    pub fn is_empty(self) -> bool
        ensures { IsTrue result ↔ ((k : ℕ) → holds self k ≡ false) }
    {
        self.words.iter().all(|&word| word == 0)
    }

    // The lowest number from 0 to 119 that is not in the set.
    #[tactic(auto, using(crate::proofs::Frees::lowest))]
    pub fn lowest_free(self) -> Option<u32>
        ensures value { result ≡ lowest_free (holds self) 120 }
        ensures law { LowestFree (holds self) 120 result }
    {
        let [low, high] = self.words;
        if low == u64::MAX {
            let n = 64 + (!high).trailing_zeros();
            (n < 120).then_some(n)
        } else {
            Some((!low).trailing_zeros())
        }
    }

    // The highest number from 0 to 127 that is not in the set. It shares no text with `lowest_free`: the
    // direction, the order of the words and the bound are others.
    #[tactic(auto, using(crate::proofs::Frees::highest))]
    pub fn highest_free(self) -> Option<u32>
        ensures value { result ≡ highest_free (holds self) 128 }
        ensures law { HighestFree (holds self) 128 result }
    {
        let [low, high] = self.words;
        if high != u64::MAX {
            Some(127 - (!high).leading_zeros())
        } else if low != u64::MAX {
            Some(63 - (!low).leading_zeros())
        } else {
            None
        }
    }
}
