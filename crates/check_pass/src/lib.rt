// The pass over the nodes of a part, kind by kind: the least question that may fail in it.
#![tactic(auto)]

mod nodes;
pub mod survey;

ghost use Rattle.std.specs.Prelude.{◌≡◌, true, ◌+◌, ◌*◌, ◌-◌, ◌≤◌, ◌<◌, length, set};
ghost use Rattle.spec_language.specs.Types.{unset};
ghost use Rattle.records.specs.Format.{most_nodes, most_variables};
ghost use Rattle.varset.specs.Sets.{has, Sub};
ghost use Rattle.records.specs.Fields.{functions, kind_at, b_at};
ghost use Rattle.records.specs.Parts.{Laid};
ghost use Rattle.check_pass.specs.Passed.{Passed, ClearBelow};
ghost use Rattle.check_pass.specs.Judged.{Judged, PartFacts, Own, AtNode};

use check_effects::{Effect, FAILING, RETURN, STATEMENT, plain};
use nodes::Node;
use records::format::{TYPE_ANY, TYPE_UNSET, VARIABLE_ENTRIES};
use records::nodes::{a_at, b_at, kind_at, size_at};
use records::{minus, params_of, result_of, wide};
use varset::VarSet;

impl Node<'_> {
    ghost use Rattle.check_pass.specs.Nodes.{Is, Passes};

    // A call.
    fn call_at(&self) -> Effect
        requires { Is self.now 5 }
        ensures { Passes self.now result }
    {
        let callee = b_at(self.part, self.index) as usize;
        let arguments = wide(a_at(self.part, self.index)) as usize;
        let mut c = minus(self.index, 1);
        let mut sum = 0;
        let mut all = VarSet::empty();
        for j in (0..arguments).rev() {
            let argument = self.effect_of(c);
            if argument.code != check_types::param_type(self.file, callee, j) {
                return FAILING;
            }
            all = all.union(argument.reads);
            let size = size_at(self.part, c);
            sum += size;
            c = minus(c, size);
        }
        let found = result_of(self.file, callee);
        let passes = (found < STATEMENT) & self.fits(sum);
        nodes::guard(passes, plain(found, all, VarSet::empty()))
    }

    // A node of one node; by kind.
    fn alone_at(&self) -> Effect
        ensures { Passes self.now result }
    {
        let kind = kind_at(self.part, self.index);
        match kind {
            0 => self.leaf_at(1),
            1 => self.leaf_at(2),
            2 => self.variable_at(),
            5 => self.call_at(),
            6 => self.leaf_at(STATEMENT),
            15 => self.leaf_at(0),
            _ => FAILING,
        }
    }

    // A node of any kind, by whether it is alone, which is told sooner than its kind; by kind.
    fn effect_at(&self) -> Effect
        ensures { Passes self.now result }
    {
        if size_at(self.part, self.index) == 1 {
            return self.alone_at();
        }
        let kind = kind_at(self.part, self.index);
        match kind {
            3 => self.operator_at(1, check_types::operator_type(a_at(self.part, self.index))),
            4 => self.operator_at(2, 2),
            5 => self.call_at(),
            7 => self.sequence_at(),
            8 => self.assign_at(),
            9 => self.scope_at(),
            10 => self.branches_at(),
            11 => self.loop_at(),
            12 => self.single_at(result_of(self.file, self.function), RETURN),
            13 => self.single_at(2, STATEMENT),
            14 => self.single_at(TYPE_ANY, STATEMENT),
            _ => FAILING,
        }
    }
}

// The variables declared up to node i, where those before it are given; a decl that is alone is left out, since it does not pass.
fn declared(part: &[u8], i: usize, seen: VarSet) -> VarSet
    requires { (12 * i + 12 ≤ length part.now) × (kind_at part.now i ≡ 9 → b_at part.now i < most_variables) }
    ensures grown { Sub (has seen.0) (has result.0) }
    ensures own { Own part.now (has result.0) i }
{
    if size_at(part, i) == 1 {
        return seen;
    }
    check_effects::with_decl(part, i, seen)
}

// The least question that may fail in a part that passes those before 13: 13 unless its reads are held, 14 unless it returns, else 15.
fn least(held: bool, returning: bool) -> u8
    ensures { (13 < result → held ≡ true) × (14 < result → returning ≡ true) × (13 ≤ result) × (result ≤ 15) }
{
    if !held {
        return 13;
    }
    if !returning {
        return 14;
    }
    15
}

// The least question from 8 to 14, but for 10, that may fail in a part of n nodes; 15 where none may.
fn floor(
    file: &[u8],
    f: usize,
    part: &[u8],
    n: usize,
    decls: &[usize; VARIABLE_ENTRIES],
    begun: VarSet,
    codes: &mut [u8],
    reads: &mut [u64],
    sets: &mut [u64],
) -> u8
    requires inside { PartFacts file.now f part.now n decls.now × (1 ≤ n) × (n ≤ most_nodes) }
    requires room { (n ≤ length codes.old) × (n ≤ length reads.old) × (n ≤ length sets.old) }
    ensures shown { Passed file.now f part.now n (has begun.0) result × (8 ≤ result) × (result ≤ 15) }
    ensures room { (length codes.new ≡ length codes.old) × (length reads.new ≡ length reads.old) × (length sets.new ≡ length sets.old) }
{
    let mut seen = VarSet::empty();
    for i in 0..n {
        seen = declared(part, i, seen);
        let node = Node {
            file,
            function: f,
            part,
            count: n,
            decls,
            codes: &*codes,
            reads: &*reads,
            sets: &*sets,
            seen,
            index: i,
        };
        let e = node.effect_at();
        if e.code == TYPE_UNSET {
            return check_rest::floor_from(file, f, part, n, decls, i);
        }
        // Three arrays, of 17 bytes a node: one of effects, of 24, is set to zero and then filled, and a check took more instructions and time.
        codes[i] = e.code;
        reads[i] = e.reads.0;
        sets[i] = e.sets.0;
    }
    let last = n - 1;
    if !((size_at(part, last) == n) & (STATEMENT <= codes[last])) {
        return check_rest::floor_from(file, f, part, n, decls, last);
    }
    let held = VarSet(reads[last]).minus(begun).is_empty();
    least(held, codes[last] == RETURN)
}

// The least question from 7 to 14 that may fail in the part of function f, of n nodes; 15 where none may.
pub fn part_floor(
    file: &[u8],
    f: usize,
    part: &[u8],
    n: usize,
    codes: &mut [u8],
    reads: &mut [u64],
    sets: &mut [u64],
) -> u8
    requires laid { Laid file.now × (f < functions file.now) }
    requires inside { (12 * n ≤ length part.now) × (1 ≤ n) × (n ≤ most_nodes) }
    requires room { (n ≤ length codes.old) × (n ≤ length reads.old) × (n ≤ length sets.old) }
    ensures clear { ClearBelow file.now f part.now n result × (7 ≤ result) × (result ≤ 15) }
    ensures room { (length codes.new ≡ length codes.old) × (length reads.new ≡ length reads.old) × (length sets.new ≡ length sets.old) }
{
    let mut decls = [0usize; VARIABLE_ENTRIES];
    let asked = crate::survey::survey_part(file, f, part, n, &mut decls);
    if asked < 8 {
        return 7;
    }
    let begun = VarSet::below(wide(params_of(file, f)));
    check_rest::lower(
        floor(file, f, part, n, &decls, begun, codes, reads, sets),
        asked,
    )
}
