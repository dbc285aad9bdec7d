// What a leaf holds: a key, by its total order.
ghost use Rattle.std.specs.Prelude.{◌≡◌, Bool, true, ◌⊎◌, nat_le};
ghost use Rattle.std.proofs.Common.{rules};

// A key with a total order: `leq a b` says that a comes first or equals b. Not `Ord`: that would ask more of a key than the tree needs,
// and of the callers who have one. The two orders below differ in one sign; a type that
// turns an order round would be one more layer.
pub trait Key {
    ghost leq: { Self → Self → Bool };

    // Whether this key comes first or equals the other.
    fn leads(self, other: Self) -> bool
        ensures { result ≡ leq self other };

    ghost total: { (a b : Self) → (leq a b ≡ true) ⊎ (leq b a ≡ true) };

    ghost transitive: { (a b c : Self) → leq a b ≡ true → leq b c ≡ true → leq a c ≡ true };

    ghost antisymmetric: { (a b : Self) → leq a b ≡ true → leq b a ≡ true → a ≡ b };
}

// The priority of a PLIC source: the greater comes first.
#[derive(Clone, Copy, PartialEq, Eq, Debug)]
pub struct Priority(pub u8);

impl Key for Priority {
    ghost leq = { λ a b. nat_le b.0 a.0 };

    ghost total = { Prim.search rules };

    ghost transitive = { Prim.search rules };

    ghost antisymmetric = { Prim.search rules };

    fn leads(self, other: Priority) -> bool {
        self.0 >= other.0
    }
}

// A level of an 8259A: the smaller comes first.
#[derive(Clone, Copy, PartialEq, Eq, Debug)]
pub struct Level(pub u8);

impl Key for Level {
    ghost leq = { λ a b. nat_le a.0 b.0 };

    ghost total = { Prim.search rules };

    ghost transitive = { Prim.search rules };

    ghost antisymmetric = { Prim.search rules };

    fn leads(self, other: Level) -> bool {
        self.0 <= other.0
    }
}
