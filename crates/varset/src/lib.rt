// Sets of variables over a word: member i is bit i.
#![tactic(auto)]

ghost use Rattle.std.specs.Prelude.{◌≡◌, true, ◌↔◌, ◌<◌, ◌≤◌};
ghost use Rattle.varset.specs.Lowest.{lowest};
ghost use Rattle.varset.specs.Sets.{has, none, with, without, both, either, less, below};

// A set of numbers below 64.
#[derive(Clone, Copy, Debug, Default, PartialEq, Eq)]
pub struct VarSet(pub u64);

// The set without members.
pub const EMPTY: VarSet = VarSet(0);

// The set of all numbers below 64.
pub const FULL: VarSet = VarSet(u64::MAX);

impl VarSet {
    // The set without members.
    pub fn empty() -> VarSet
        ensures { has result.0 ≡ none }
    {
        EMPTY
    }

    // The set of all numbers below 64.
    pub fn full() -> VarSet
        ensures { has result.0 ≡ below 64 }
    {
        FULL
    }

    // The numbers below n.
    pub fn below(n: u32) -> VarSet
        requires { n ≤ 64 }
        ensures { has result.0 ≡ below n }
    {
        if n == 64 {
            VarSet::full()
        } else {
            VarSet((1u64 << n) - 1)
        }
    }

    // The set with i added.
    pub fn insert(self, i: u32) -> VarSet
        requires { i < 64 }
        ensures { has result.0 ≡ with (has self.0) i }
    {
        VarSet(self.0 | (1u64 << i))
    }

    // The set with i removed.
    pub fn remove(self, i: u32) -> VarSet
        requires { i < 64 }
        ensures { has result.0 ≡ without (has self.0) i }
    {
        VarSet(self.0 & !(1u64 << i))
    }

    // What two sets share.
    pub fn meet(self, other: VarSet) -> VarSet
        ensures { has result.0 ≡ both (has self.0) (has other.0) }
    {
        VarSet(self.0 & other.0)
    }

    // What either set has.
    pub fn union(self, other: VarSet) -> VarSet
        ensures { has result.0 ≡ either (has self.0) (has other.0) }
    {
        VarSet(self.0 | other.0)
    }

    // What this set has and the other has not.
    pub fn minus(self, other: VarSet) -> VarSet
        ensures { has result.0 ≡ less (has self.0) (has other.0) }
    {
        VarSet(self.0 & !other.0)
    }

    // Whether there is no member.
    pub fn is_empty(self) -> bool
        ensures { result ≡ true ↔ (has self.0 ≡ none) }
    {
        self.0 == 0
    }

    // Whether i is a member. The shift is kept: it reads the bit as the definition of a member does, and a mask reads no plainer.
    pub fn contains(self, i: u32) -> bool
        requires { i < 64 }
        ensures { result ≡ has self.0 i }
    {
        (self.0 >> i) % 2 == 1
    }

    // The lowest member, 64 where there is none.
    pub fn lowest(self) -> u32
        ensures { result ≡ lowest (has self.0) 64 }
    {
        self.0.trailing_zeros()
    }
}
