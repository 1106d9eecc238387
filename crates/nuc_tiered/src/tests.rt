use crate::TieredVec;
use std::alloc::Global;
use std::process::Abort;
use std::test::Fail;

/// A plain list and a tiered one, of which the same is asked.
#[derive(Drop)]
struct Lists {
    plain: Vec<usize>,
    tiered: TieredVec,
    seed: u64,
}

impl Lists {
    fn new(alloc: Global) -> Lists {
        Lists {
            plain: Vec::new(alloc),
            tiered: TieredVec::new(alloc),
            seed: 1,
        }
    }

    /// A number that looks like chance, below a bound.
    fn below(&mut self, bound: usize) -> usize {
        self.seed = self
            .seed
            .wrapping_mul(6_364_136_223_846_793_005)
            .wrapping_add(1_442_695_040_888_963_407);
        (self.seed >> 33) as usize % bound.max(1)
    }

    fn insert(&mut self, rt: &impl Abort, i: usize) -> Result<(), Fail> {
        let x = self.below(1_000_000);
        assert!(rt; i <= self.plain.len() && i <= self.tiered.len());
        self.plain.insert(i, x)?;
        self.tiered.reserve(1)?;
        self.tiered.insert(i, x);
        Ok(())
    }

    fn remove(&mut self, rt: &impl Abort, i: usize) {
        assert!(rt; i < self.plain.len() && i < self.tiered.len());
        let value = self.plain.remove(i);
        assert_eq!(rt; self.tiered.remove(i), value);
    }

    /// Asks both for every position, and for one more.
    fn look(&self, rt: &impl Abort) {
        assert_eq!(rt; self.tiered.len(), self.plain.len());
        for (i, x) in self.plain.iter().enumerate() {
            assert_eq!(rt; self.tiered.get(i), Some(*x));
        }
        assert!(rt; self.tiered.get(self.plain.len()).is_none());
    }
}

#[test]
fn moves_items_over_the_borders_of_blocks(rt: HostRuntime) -> Result<(), Fail> {
    let mut lists = Lists::new(rt.alloc());
    for i in 0..1_700usize {
        lists.insert(&rt, i)?;
    }
    lists.look(&rt);
    for i in [
        0usize, 1, 510, 511, 512, 513, 1_023, 1_024, 1_025, 1_535, 1_536, 1_699, 1_700,
    ] {
        lists.insert(&rt, i)?;
        lists.look(&rt);
        lists.remove(&rt, i);
        lists.look(&rt);
    }
    Ok(())
}

#[test]
fn answers_as_a_plain_list_after_many_changes(rt: HostRuntime) -> Result<(), Fail> {
    let mut lists = Lists::new(rt.alloc());
    for (inserts, removes) in [
        (3usize, 3usize),
        (600, 90),
        (1_400, 300),
        (100, 1_500),
        (7, 217),
        (1_100, 1_100),
    ] {
        for _ in 0..inserts {
            let places = lists.plain.len().saturating_add(1);
            let i = lists.below(places);
            lists.insert(&rt, i)?;
        }
        lists.look(&rt);
        for _ in 0..removes {
            let places = lists.plain.len();
            let i = lists.below(places);
            lists.remove(&rt, i);
        }
        lists.look(&rt);
    }
    assert_eq!(rt; lists.tiered.len(), 0);
    Ok(())
}

#[test]
fn reserves(rt: HostRuntime) -> Result<(), Fail> {
    let mut list = TieredVec::new(rt.alloc());
    for n in [usize::MAX, usize::MAX - 1_000, usize::MAX / 2] {
        assert!(rt; list.reserve(n).is_err());
        assert_eq!(rt; list.len(), 0);
    }
    list.reserve(513)?;
    for x in 0..513usize {
        list.insert(0, x);
    }
    assert!(rt; list.reserve(usize::MAX).is_err());
    assert_eq!(rt;
        (list.len(), list.get(0), list.get(512)),
        (513, Some(512), Some(0))
    );
    Ok(())
}
