// Results that are known beforehand, worked out by hand from the rules: one list, proved as a whole.
#![tactic(auto)]

ghost use Rattle.std.specs.Prelude.{◌≡◌, length};
ghost use Rattle.std.specs.List.{AllByRecursion};
ghost use Rattle.known.specs.Known.{Holds, result_list};

// How many results are known.
const KNOWN: usize = 10;

// The number of known results. The definitions that the contracts cite give every one of them.
#[tactic(auto, unfolding(lists::specs::Dense::last_into_gap, masks::specs::Masks::lowest_free, masks::specs::Masks::highest_free))]
pub fn known_results() -> usize
    ensures hold { AllByRecursion Holds result_list }
    ensures count { result ≡ length result_list }
{
    KNOWN
}

#[cfg(test)]
mod tests {
    use lists::dense_list::DenseList;
    use lists::refusal::Refusal;
    use lists::solver_contact_graph::GraphPos;
    use masks::mask::Mask;
    use std::test::Fail;

    // The code, run on the same results.

    #[test]
    fn words(rt: HostRuntime) -> Result<(), Fail> {
        assert_eq!(rt; u32::from(GraphPos::new(5, 3)?), 20971523);
        assert_eq!(rt; u32::from(GraphPos::new(129, 0)?), 541065216);
        assert!(rt; GraphPos::new(130, 0) == Err(Refusal::NoSuchPlace));
        assert!(rt; GraphPos::new(5, 4194304) == Err(Refusal::NoSuchPlace));
        Ok(())
    }

    // The numbers from `first` to `last`, but for one.
    fn all_but(first: u32, last: u32, left_out: u32) -> Mask {
        let mut mask = Mask::new();
        for n in first..last {
            if n != left_out
                && let Some(more) = mask.with(n)
            {
                mask = more;
            }
        }
        mask
    }

    #[test]
    fn colours(rt: HostRuntime) -> Result<(), Fail> {
        let empty = Mask::new();
        assert_eq!(rt; empty.union(empty).lowest_free(), Some(0));
        assert_eq!(rt;
            empty
                .with(0)
                .ok_or("")?
                .union(empty.with(1).ok_or("")?)
                .lowest_free(),
            Some(2)
        );
        assert_eq!(rt;
            all_but(0, 64, 200)
                .union(all_but(64, 120, 200))
                .lowest_free(),
            None
        );
        assert_eq!(rt; empty.highest_free(), Some(127));
        assert_eq!(rt; empty.with(127).ok_or("")?.highest_free(), Some(126));
        assert_eq!(rt; all_but(0, 128, 200).highest_free(), None);
        assert_eq!(rt; all_but(0, 128, 71).lowest_free(), Some(71));
        assert_eq!(rt; all_but(0, 128, 3).highest_free(), Some(3));
        Ok(())
    }

    #[test]
    fn removals(rt: HostRuntime) -> Result<(), Fail> {
        let mut places = [0u32; 3];
        let mut list = DenseList::new(&mut places);
        for name in [65, 66, 67] {
            list.push(name)?;
        }
        assert_eq!(rt; list.push(68), Err(Refusal::NoRoom));
        assert_eq!(rt; list.remove(0)?, Some(67));
        assert_eq!(rt; list.get(0), Some(67));
        assert_eq!(rt; list.get(1), Some(66));
        assert_eq!(rt; list.remove(1)?, None);
        assert_eq!(rt; list.len(), 1);
        assert_eq!(rt; list.get(0), Some(67));
        assert_eq!(rt; list.remove(1), Err(Refusal::NoSuchPlace));
        Ok(())
    }
}
