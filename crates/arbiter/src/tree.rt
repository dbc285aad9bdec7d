// A tree of matches over any number of leaves: each match lets the better of two halves go on. A tree and no fold, by a rule of
// the project: it is how the chips' own arbiters are built.
ghost use Rattle.std.specs.Prelude.{◌≡◌, ℕ, ◌+◌, ◌^◌, ◌≤◌, [], ◌∷◌, length, Option};
ghost use Rattle.arbiter.specs.Winning.{Winner};
ghost use Rattle.arbiter.specs.Matches.{Best, played};

use crate::key::Key;

// A leaf that is still in the running, with its key.
#[derive(Clone, Copy)]
struct Entrant<K> {
    leaf: usize,
    key: K,
}

// One match: the left entrant, of the lower leaf, goes on if its key comes first or equals the right one's.
fn play<K: Key + Copy>(left: Option<Entrant<K>>, right: Option<Entrant<K>>) -> Option<Entrant<K>>
    ensures { result ≡ played K.leq left right }
{
    match (left, right) {
        (Some(l), Some(r)) => Some(if l.key.leads(r.key) { l } else { r }),
        (left, right) => left.or(right),
    }
}

// What goes on from one leaf, which has this number.
fn contend<K: Key + Copy>(leaf: Option<K>, number: usize) -> Option<Entrant<K>>
    ensures { Best K.leq (leaf ∷ []) number result }
{
    leaf.map(|key| Entrant { leaf: number, key })
}

// The best of the leaves, of which the first is number `from`, by a match between the best of each half.
fn best<K: Key + Copy>(leaves: &[Option<K>], from: usize) -> Option<Entrant<K>>
    requires { from + length leaves.now ≤ 2 ^ 64 }
    ensures { Best K.leq leaves.now from result }
{
    match leaves {
        [] => None,
        [leaf] => contend(*leaf, from),
        [left, right] => play(contend(*left, from), contend(*right, from + 1)),
        _ => {
            let (left, right) = leaves.split_at(leaves.len() / 2);
            play(best(left, from), best(right, from + left.len()))
        }
    }
}

// The leaf that holds the first key, the lower leaf among equal keys; none if every leaf is empty.
pub fn winner<K: Key + Copy>(leaves: &[Option<K>]) -> Option<usize>
    ensures wins { Winner K.leq leaves.now result }
    ensures alone { (other : Option ℕ) → Winner K.leq leaves.now other → other ≡ result }
{
    best(leaves, 0).map(|entrant| entrant.leaf)
}
