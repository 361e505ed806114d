// A node of each kind in the pass over a part: its effect, or that it is not known to pass.
ghost use Rattle.std.specs.Prelude.{◌≡◌, true, ◌+◌, ◌≤◌, ◌<◌};
ghost use Rattle.spec_language.specs.Types.{unset, var_type};
ghost use Rattle.spec_language.specs.Nodes.{outside};
ghost use Rattle.varset.specs.Sets.{has, none, with};
ghost use Rattle.records.specs.Fields.{b_at, size_at};
ghost use Rattle.check_pass.specs.Judged.{AtNode, effect_in, one_proof};

use check_effects::{Effect, FAILING, STATEMENT, of_expression, plain};
use records::format::{TYPE_BOOL, VARIABLE_ENTRIES};
use records::minus;
use records::nodes::{b_at, size_at};
use varset::VarSet;

// A node of the part of a function, which has so many nodes, where the pass has come to it: those before it have passed with these effects.
#[derive(Clone, Copy)]
pub struct Node<'a> {
    pub file: &'a [u8],
    pub function: usize,
    pub part: &'a [u8],
    pub count: usize,
    pub decls: &'a [usize; VARIABLE_ENTRIES],
    pub codes: &'a [u8],
    pub reads: &'a [u64],
    pub sets: &'a [u64],
    pub seen: VarSet,
    pub index: usize,
    ghost at: { AtNode file.now function part.now count decls.now codes.now reads.now sets.now (has seen.0) index } by { Prim.hlevel one_proof },
}

// The effect, where the test is passed.
pub fn guard(passes: bool, e: Effect) -> Effect
    ensures { result.code < unset → (passes ≡ true) × (result ≡ e) }
{
    if passes { e } else { FAILING }
}

impl Node<'_> {
    ghost use Rattle.check_pass.specs.Nodes.{Is, Uses, JudgedAt, Passes, IsLeaf, IsOperator, IsSingle};

    // The effect of node k.
    pub fn effect_of(&self, k: usize) -> Effect
        requires { k < self.now.count }
        ensures stored { result ≡ effect_in self.now.codes.now self.now.reads.now self.now.sets.now k }
        ensures judged { k < self.now.index → JudgedAt self.now k result }
    {
        Effect {
            code: self.codes[k],
            reads: VarSet(self.reads[k]),
            sets: VarSet(self.sets[k]),
        }
    }

    // Whether its children, of so many nodes together, have room before it and fill its subtree.
    pub fn fits(&self, sum: usize) -> bool
        requires { sum < 1099511627776 }
        ensures { result ≡ true → (size_at self.now.part.now self.now.index ≡ 1 + sum) × (sum ≤ self.now.index) }
    {
        (size_at(self.part, self.index) == 1 + sum) & (sum <= self.index)
    }

    // The type of its variable.
    fn variable_type(&self) -> u8
        requires { Uses self.now }
        ensures { result ≡ var_type self.now.file.now self.now.function self.now.part.now self.now.count (b_at self.now.part.now self.now.index) }
    {
        let x = b_at(self.part, self.index);
        check_types::var_type(
            self.file,
            self.function,
            self.part,
            self.count,
            self.decls,
            x,
        )
    }

    // Whether it uses its variable outside the variable's decl.
    fn strays(&self) -> bool
        requires { Uses self.now }
        ensures { result ≡ outside self.now.file.now self.now.function self.now.part.now self.now.count self.now.index }
    {
        check_scopes::strays(
            self.file,
            self.function,
            self.part,
            self.count,
            self.decls,
            self.index,
        )
    }

    // The set of its variable alone.
    fn variable_alone(&self) -> VarSet
        requires { Uses self.now }
        ensures { has result.0 ≡ with none (b_at self.now.part.now self.now.index) }
    {
        VarSet::empty().insert(b_at(self.part, self.index))
    }

    // A node without children.
    pub fn leaf_at(&self, code: u8) -> Effect
        requires { IsLeaf self.now code }
        ensures { Passes self.now result }
    {
        guard(self.fits(0), plain(code, VarSet::empty(), VarSet::empty()))
    }
    // A variable.
    #[tactic(auto, unfolding(spec_language::specs::Scopes::uses_variable))]
    pub fn variable_at(&self) -> Effect
        requires { Is self.now 2 }
        ensures { Passes self.now result }
    {
        let found = self.variable_type();
        let passes = (found < STATEMENT) & !self.strays() & self.fits(0);
        let own = self.variable_alone();
        guard(passes, plain(found, own, VarSet::empty()))
    }

    // An operator or &&.
    pub fn operator_at(&self, want: u8, code: u8) -> Effect
        requires { IsOperator self.now want code }
        ensures { Passes self.now result }
    {
        let b = minus(self.index, 1);
        let size = size_at(self.part, b);
        let a = minus(b, size);
        let fit = self.fits(size + size_at(self.part, a));
        let left = self.effect_of(a);
        let right = self.effect_of(b);
        let passes = (left.code == want) & (right.code == want) & fit;
        let all = left.reads.union(right.reads);
        guard(passes, plain(code, all, VarSet::empty()))
    }

    // A seq.
    pub fn sequence_at(&self) -> Effect
        requires { Is self.now 7 }
        ensures { Passes self.now result }
    {
        let b = minus(self.index, 1);
        let size = size_at(self.part, b);
        let a = minus(b, size);
        let fit = self.fits(size + size_at(self.part, a));
        let first = self.effect_of(a);
        let second = self.effect_of(b);
        let e = check_effects::in_sequence(first, second, self.seen);
        let passes = (STATEMENT <= first.code)
            & (STATEMENT <= second.code)
            & (STATEMENT <= e.code)
            & fit;
        guard(passes, e)
    }

    // An assign.
    #[tactic(auto, unfolding(spec_language::specs::Scopes::uses_variable))]
    pub fn assign_at(&self) -> Effect
        requires { Is self.now 8 }
        ensures { Passes self.now result }
    {
        let b = minus(self.index, 1);
        let fit = self.fits(size_at(self.part, b));
        let value = self.effect_of(b);
        let want = self.variable_type();
        let suited = check_types::is_suited(want, value.code);
        let own = self.variable_alone();
        guard(
            (value.code < STATEMENT) & suited & !self.strays() & fit,
            plain(STATEMENT, value.reads, own),
        )
    }

    // A decl.
    pub fn scope_at(&self) -> Effect
        requires { Is self.now 9 }
        ensures { Passes self.now result }
    {
        let x = b_at(self.part, self.index);
        let b = minus(self.index, 1);
        let fit = self.fits(size_at(self.part, b));
        let inner = self.effect_of(b);
        let e = check_effects::in_scope(inner, x);
        let passes = (STATEMENT <= inner.code) & (STATEMENT <= e.code) & fit;
        guard(passes, e)
    }

    // An if.
    pub fn branches_at(&self) -> Effect
        requires { Is self.now 10 }
        ensures { Passes self.now result }
    {
        let b = minus(self.index, 1);
        let size = size_at(self.part, b);
        let a = minus(b, size);
        let other = size_at(self.part, a);
        let c = minus(a, other);
        let fit = self.fits(size + other + size_at(self.part, c));
        let condition = self.effect_of(c);
        let first = self.effect_of(a);
        let second = self.effect_of(b);
        let e = check_effects::in_branches(condition.reads, first, second);
        let both = (STATEMENT <= first.code) & (STATEMENT <= second.code);
        let statements = both & (STATEMENT <= e.code);
        guard((condition.code == TYPE_BOOL) & statements & fit, e)
    }

    // A while.
    pub fn loop_at(&self) -> Effect
        requires { Is self.now 11 }
        ensures { Passes self.now result }
    {
        let b = minus(self.index, 1);
        let size = size_at(self.part, b);
        let a = minus(b, size);
        let fit = self.fits(size + size_at(self.part, a));
        let test = self.effect_of(a);
        let body = self.effect_of(b);
        let e = check_effects::in_loop(test.reads, body);
        let statements = (STATEMENT <= body.code) & (STATEMENT <= e.code);
        guard((test.code == TYPE_BOOL) & statements & fit, e)
    }

    // A statement of one expression, which is to be of the type `want`.
    pub fn single_at(&self, want: u8, code: u8) -> Effect
        requires { IsSingle self.now want code }
        ensures { Passes self.now result }
    {
        let b = minus(self.index, 1);
        let fit = self.fits(size_at(self.part, b));
        let value = self.effect_of(b);
        let passes = (value.code < STATEMENT) & check_types::is_suited(want, value.code) & fit;
        guard(passes, of_expression(code, value.reads))
    }
}
