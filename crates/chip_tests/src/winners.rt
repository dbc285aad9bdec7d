// The arbitration tree against a plain scan, at several sizes and fillings of the leaves.
use arbiter::{Key, Level, Priority, winner};
use std::alloc::{AllocError, Global};
use std::fmt::Debug;
use std::iter::successors;
use std::process::Abort;
use std::test::Fail;

const SIZES: [usize; 8] = [0, 1, 2, 3, 8, 64, 1000, 1024];

// Where the leaves begin, how many of 16 hold a key on the average, and the bits that a key may have.
struct Filling(u32, u8, u8);

const FILLINGS: [Filling; 9] = [
    Filling(1, 0, 0x07),
    Filling(2, 1, 0x07),
    Filling(3, 1, 0xff),
    Filling(4, 8, 0x00),
    Filling(5, 8, 0x07),
    Filling(6, 8, 0xff),
    Filling(7, 16, 0x00),
    Filling(8, 16, 0x01),
    Filling(9, 16, 0xff),
];

// A step of a linear congruential generator, as in dispatch_tests: shared, it would be a public call with a contract, no plainer.
fn next(state: u32) -> u32 {
    state.wrapping_mul(1_664_525).wrapping_add(1_013_904_223)
}

// The first leaf whose key no other comes before, by a scan that keeps the best so far.
fn scan<F: Fn(u8, u8) -> bool>(leaves: &[Option<u8>], before: F) -> Option<usize>
    requires { F.IsAlwaysCallable before }
{
    leaves
        .iter()
        .enumerate()
        .filter_map(|(place, leaf)| leaf.map(|key| (place, key)))
        .reduce(|best, next| if before(next.1, best.1) { next } else { best })
        .map(|(place, _)| place)
}

// What the tree finds over the leaves, with their keys of one kind.
fn by_tree<K: Key + Copy, F: Fn(u8) -> K>(
    heap: Global,
    leaves: &[Option<u8>],
    key: F,
) -> Result<Option<usize>, AllocError>
    requires { F.IsAlwaysCallable key }
{
    let keys = leaves
        .iter()
        .map(|leaf| leaf.map(|bits| key(bits)))
        .collect::<Vec<_>>(heap)?;
    Ok(winner(&keys))
}

impl Filling {
    // The leaf that a state of the generator stands for.
    fn leaf(&self, state: u32) -> Option<u8> {
        let &Filling(_, filled, bits) = self;
        let [_, _, choice, key] = state.to_le_bytes();
        (choice % 16 < filled).then_some(key & bits)
    }

    fn leaves(&self, heap: Global, size: usize) -> Result<Vec<Option<u8>>, AllocError> {
        successors(Some(next(self.0)), |state| Some(next(*state)))
            .take(size)
            .map(|state| self.leaf(state))
            .collect(heap)
    }

    // The tree finds what a scan finds, with the keys of one kind in their order.
    fn check_keys<K: Key + Copy + Debug, F: Fn(u8) -> K, B: Fn(u8, u8) -> bool>(
        &self,
        rt: &impl Abort,
        heap: Global,
        size: usize,
        key: F,
        before: B,
    ) -> Result<(), Fail>
        requires keyed { F.IsAlwaysCallable key }
        requires ordered { B.IsAlwaysCallable before }
    {
        let leaves = self.leaves(heap, size)?;
        assert_eq!(rt;
            by_tree(heap, &leaves, &key)?,
            scan(&leaves, before),
            "{size} leaves from {}, keys like {:?}",
            self.0,
            key(0)
        );
        Ok(())
    }

    fn check(&self, rt: &impl Abort, heap: Global, size: usize) -> Result<(), Fail> {
        self.check_keys(rt, heap, size, Level, |key, other| key < other)?;
        self.check_keys(rt, heap, size, Priority, |key, other| key > other)
    }
}

fn check_size(rt: &impl Abort, heap: Global, size: usize) -> Result<(), Fail> {
    for filling in &FILLINGS {
        filling.check(rt, heap, size)?;
    }
    Ok(())
}

#[test]
fn the_tree_finds_what_a_scan_finds(rt: HostRuntime) -> Result<(), Fail> {
    for size in SIZES {
        check_size(&rt, rt.alloc(), size)?;
    }
    Ok(())
}

// Two keys, and whether the first leads the other as a level and as a priority.
struct Pair(u8, u8, bool, bool);

const PAIRS: [Pair; 6] = [
    Pair(0, 0, true, true),
    Pair(3, 5, true, false),
    Pair(5, 3, false, true),
    Pair(0, 255, true, false),
    Pair(255, 254, false, true),
    Pair(255, 255, true, true),
];

#[test]
fn a_lower_level_and_a_greater_priority_lead(rt: HostRuntime) {
    for &Pair(one, other, level, priority) in &PAIRS {
        assert_eq!(rt; Level(one).leads(Level(other)), level, "{one}, {other}");
        assert_eq!(rt;
            Priority(one).leads(Priority(other)),
            priority,
            "{one}, {other}"
        );
    }
}
