// Questions 10 and 11: each variable is declared once, and used under its decl.
#![tactic(auto)]

ghost use Rattle.std.specs.Prelude.{◌≡◌, true, ◌+◌, ◌*◌, ◌≤◌, ◌<◌, length};
ghost use Rattle.records.specs.Format.{most_parameters, most_variables};
ghost use Rattle.varset.specs.Lowest.{lowest};
ghost use Rattle.records.specs.Fields.{params_of, vars_of, kind_at, b_at};
ghost use Rattle.records.specs.Search.{first_of};
ghost use Rattle.spec_language.specs.Scopes.{under, uses_variable};
ghost use Rattle.spec_language.specs.Nodes.{undeclared, first_undeclared, outside};
ghost use Rattle.spec_language.specs.Known.{Known};
ghost use Rattle.check_scopes.specs.Counts.{Named, Counts, Decls, Noted};

use records::format::VARIABLE_ENTRIES;
use records::nodes::{b_at, kind_at, size_at};
use records::{Found, params_of, vars_of, wide};
use varset::VarSet;

// The variables declared so far, and those declared more than once.
#[derive(Clone, Copy)]
pub struct Declared {
    pub seen: VarSet,
    pub twice: VarSet,
}

// The same with node i taken in.
//
// By value, since it is two words: a method that changes it in place would be no shorter.
pub fn count_decl(part: &[u8], i: usize, d: Declared) -> Declared
    requires inside { 12 * i + 12 ≤ length part.now }
    requires narrow { kind_at part.now i ≡ 9 → b_at part.now i < most_variables }
    requires counted { Counts part.now i d }
    ensures { Counts part.now (i + 1) result }
{
    if kind_at(part, i) != 9 {
        return d;
    }
    let x = b_at(part, i);
    if d.seen.contains(x) {
        Declared {
            twice: d.twice.insert(x),
            ..d
        }
    } else {
        Declared {
            seen: d.seen.insert(x),
            ..d
        }
    }
}

// The variables declared in a part of n nodes, and those declared more than once.
fn declared_in(part: &[u8], n: usize) -> Declared
    requires inside { 12 * n ≤ length part.now }
    requires named { Named part.now n }
    ensures { Counts part.now n result }
{
    let mut d = Declared {
        seen: VarSet::empty(),
        twice: VarSet::empty(),
    };
    for i in 0..n {
        d = count_decl(part, i, d);
    }
    d
}

// The lowest variable of function f that is not declared exactly once, where d has the decls of its part, of n nodes.
pub fn lowest_undeclared(file: &[u8], f: usize, part: &[u8], n: usize, d: Declared) -> Option<Found>
    requires laid { (12 * (1 + f) + 12 ≤ length file.now) × (vars_of file.now f ≤ most_variables) × (params_of file.now f ≤ most_parameters) }
    requires counted { Counts part.now n d }
    ensures { result ≡ first_undeclared (lowest (undeclared file.now f part.now n) (vars_of file.now f)) (vars_of file.now f) }
{
    let own = VarSet::below(wide(vars_of(file, f))).minus(VarSet::below(wide(params_of(file, f))));
    let x = own.minus(d.seen.minus(d.twice)).lowest();
    if x < 64 {
        Some(Found { place: 0, item: x })
    } else {
        None
    }
}

// The lowest variable of function f, whose part has n nodes, that is not declared exactly once.
pub fn first_undeclared(file: &[u8], f: usize, part: &[u8], n: usize) -> Option<Found>
    requires laid { (12 * (1 + f) + 12 ≤ length file.now) × (vars_of file.now f ≤ most_variables) × (params_of file.now f ≤ most_parameters) }
    requires inside { 12 * n ≤ length part.now }
    requires named { Named part.now n }
    ensures { result ≡ first_undeclared (lowest (undeclared file.now f part.now n) (vars_of file.now f)) (vars_of file.now f) }
{
    lowest_undeclared(file, f, part, n, declared_in(part, n))
}

// The table of decls with node i taken in.
pub fn note_decl(part: &[u8], i: usize, table: &mut [usize; VARIABLE_ENTRIES])
    requires inside { 12 * i + 12 ≤ length part.now }
    requires narrow { kind_at part.now i ≡ 9 → b_at part.now i < most_variables }
    requires told { Noted part.now i table.old }
    ensures { Noted part.now (i + 1) table.new }
{
    if kind_at(part, i) == 9 {
        let x = b_at(part, i) as usize;
        table[x] = i;
    }
}

// The decl of each variable of a part of n nodes.
pub fn decl_table(part: &[u8], n: usize) -> [usize; VARIABLE_ENTRIES]
    requires inside { 12 * n ≤ length part.now }
    requires named { Named part.now n }
    ensures { Decls part.now n result }
{
    let mut table = [0usize; VARIABLE_ENTRIES];
    for i in 0..n {
        note_decl(part, i, &mut table);
    }
    table
}

// Whether node j lies in the subtree of node d, below it.
#[tactic(auto, unfolding(spec_language::specs::Scopes::under))]
pub fn is_under(part: &[u8], d: usize, j: usize) -> bool
    requires { (12 * d + 12 ≤ length part.now) × (12 * j + 12 ≤ length part.now) }
    ensures { result ≡ under part.now d j }
{
    (j < d) & (d < j + size_at(part, d))
}

// Whether node i of a part of n nodes, which uses or assigns a variable, does so outside its decl.
pub fn strays(
    file: &[u8],
    f: usize,
    part: &[u8],
    n: usize,
    decls: &[usize; VARIABLE_ENTRIES],
    i: usize,
) -> bool
    requires laid { 12 * (1 + f) + 12 ≤ length file.now }
    requires inside { (12 * n ≤ length part.now) × (i < n) }
    requires uses { (uses_variable (kind_at part.now i) ≡ true) × (b_at part.now i < most_variables) }
    requires told { Decls part.now n decls.now }
    ensures { result ≡ outside file.now f part.now n i }
{
    let x = b_at(part, i);
    if x < wide(params_of(file, f)) {
        return false;
    }
    let d = decls[x as usize];
    !is_under(part, d, i)
}

// Whether node i of a part of n nodes uses or assigns a variable from p on outside its decl; by kind.
pub fn is_outside(
    file: &[u8],
    f: usize,
    part: &[u8],
    n: usize,
    decls: &[usize; VARIABLE_ENTRIES],
    i: usize,
) -> bool
    requires laid { 12 * (1 + f) + 12 ≤ length file.now }
    requires inside { (12 * n ≤ length part.now) × (i < n) }
    requires named { Named part.now n }
    requires told { Decls part.now n decls.now }
    ensures { result ≡ outside file.now f part.now n i }
{
    match kind_at(part, i) {
        2 | 8 => strays(file, f, part, n, decls, i),
        _ => false,
    }
}

// The lowest node of function f's part, of n nodes, that uses or assigns a variable outside its decl.
pub fn first_outside(file: &[u8], f: usize, part: &[u8], n: usize) -> Option<Found>
    requires laid { 12 * (1 + f) + 12 ≤ length file.now }
    requires inside { 12 * n ≤ length part.now }
    requires known { Known part.now n }
    ensures { result ≡ first_of (outside file.now f part.now n) n }
{
    let decls = decl_table(part, n);
    records::first_of(n, |i| is_outside(file, f, part, n, &decls, i))
}
