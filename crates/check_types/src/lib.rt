// Question 12: the type of each node, and the types that nodes want.
#![tactic(auto)]

ghost use Rattle.std.specs.Prelude.{◌≡◌, ◌+◌, ◌*◌, ◌-◌, ◌≤◌, ◌<◌, length, get_or};
ghost use Rattle.records.specs.Format.{most_nodes, most_parameters, most_variables};
ghost use Rattle.records.specs.Fields.{functions, params_of, kind_at};
ghost use Rattle.records.specs.Parts.{Laid};
ghost use Rattle.records.specs.Search.{first_of};
ghost use Rattle.records.specs.Children.{children};
ghost use Rattle.spec_language.specs.Types.{mask_type, param_type, var_type, operator_type, type_at, condition, want_at, suits, agree};
ghost use Rattle.spec_language.specs.Nodes.{mistyped};
ghost use Rattle.spec_language.specs.Known.{Known, CallsKnown};
ghost use Rattle.check_scopes.specs.Counts.{Decls};

use records::format::{
    MOST_NODES, TYPE_ANY, TYPE_BOOL, TYPE_INT, TYPE_NOTHING, TYPE_UNSET, VARIABLE_ENTRIES,
};
use records::nodes::{a_at, b_at, children_of, kind_at};
use records::{Found, mask_of, params_of, result_of, wide};

// The type of parameter k by the masks of bool, array and grid parameters.
pub fn mask_type(bools: u8, arrays: u8, grids: u8, k: usize) -> u8
    requires { k < 8 }
    ensures { result ≡ mask_type bools arrays grids k }
{
    1 + (bools >> k) % 2 + 2 * ((arrays >> k) % 2) + 3 * ((grids >> k) % 2)
}

// The type of parameter k of function f.
#[tactic(auto, unfolding(spec_language::specs::Types::param_type))]
pub fn param_type(file: &[u8], f: usize, k: usize) -> u8
    requires { (12 * (1 + f) + 12 ≤ length file.now) × (k < 8) }
    ensures { result ≡ param_type file.now f k }
{
    mask_type(mask_of(file, f), 0, 0, k)
}

// The type of variable x of function f.
pub fn var_type(
    file: &[u8],
    f: usize,
    part: &[u8],
    n: usize,
    decls: &[usize; VARIABLE_ENTRIES],
    x: u32,
) -> u8
    requires laid { (12 * (1 + f) + 12 ≤ length file.now) × (params_of file.now f ≤ most_parameters) }
    requires inside { (12 * n ≤ length part.now) × (1 ≤ n) × (x < most_variables) }
    requires told { Decls part.now n decls.now }
    ensures { result ≡ var_type file.now f part.now n x }
{
    if x < wide(params_of(file, f)) {
        param_type(file, f, x as usize)
    } else {
        let d = decls[x as usize];
        a_at(part, d)
    }
}

// The type that an operator gives.
#[tactic(auto, unfolding(spec_language::specs::Types::operator_type))]
pub fn operator_type(a: u8) -> u8
    ensures { result ≡ operator_type a }
{
    if a < 10 { TYPE_INT } else { TYPE_BOOL }
}

// The type of node i of function f's part, of n nodes; by kind.
#[tactic(auto, unfolding(spec_language::specs::Types::type_at, spec_language::specs::Types::types_of))]
pub fn type_of(
    file: &[u8],
    f: usize,
    part: &[u8],
    n: usize,
    decls: &[usize; VARIABLE_ENTRIES],
    i: usize,
) -> u8
    requires laid { Laid file.now × (f < functions file.now) }
    requires inside { (12 * n ≤ length part.now) × (i < n) }
    requires known { Known part.now n × CallsKnown (functions file.now) part.now n }
    requires told { Decls part.now n decls.now }
    ensures { result ≡ type_at file.now f part.now n i }
{
    let kind = kind_at(part, i);
    match kind {
        0 => TYPE_INT,
        1 => TYPE_BOOL,
        2 => var_type(file, f, part, n, decls, b_at(part, i)),
        3 => operator_type(a_at(part, i)),
        4 => TYPE_BOOL,
        5 => {
            let callee = b_at(part, i) as usize;
            result_of(file, callee)
        }
        15 => TYPE_NOTHING,
        _ => TYPE_UNSET,
    }
}

// What a condition wants of child k.
#[tactic(auto, unfolding(spec_language::specs::Types::condition))]
fn condition_type(k: usize) -> u8
    ensures { result ≡ condition k }
{
    if k == 0 { TYPE_BOOL } else { TYPE_ANY }
}

// The type that node i wants of child k; by kind.
#[tactic(auto, unfolding(spec_language::specs::Types::want_at, spec_language::specs::Types::wants_of))]
fn want_of(
    file: &[u8],
    f: usize,
    part: &[u8],
    n: usize,
    decls: &[usize; VARIABLE_ENTRIES],
    i: usize,
    k: usize,
) -> u8
    requires laid { Laid file.now × (f < functions file.now) }
    requires inside { (12 * n ≤ length part.now) × (i < n) × (kind_at part.now i ≡ 5 → k < 8) }
    requires known { Known part.now n × CallsKnown (functions file.now) part.now n }
    requires told { Decls part.now n decls.now }
    ensures { result ≡ want_at file.now f part.now n i k }
{
    let kind = kind_at(part, i);
    match kind {
        3 => TYPE_INT,
        4 => TYPE_BOOL,
        5 => {
            let callee = b_at(part, i) as usize;
            param_type(file, callee, k)
        }
        8 => var_type(file, f, part, n, decls, b_at(part, i)),
        10 => condition_type(k),
        11 => condition_type(k),
        12 => result_of(file, f),
        13 => TYPE_BOOL,
        _ => TYPE_ANY,
    }
}

// Whether a type is the one wanted.
#[tactic(auto, unfolding(spec_language::specs::Types::suits))]
pub fn is_suited(want: u8, found: u8) -> bool
    ensures { result ≡ suits want found }
{
    (want == TYPE_ANY) | (want == found)
}

// Whether the children of node i have the types that it wants.
fn children_agree(
    file: &[u8],
    f: usize,
    part: &[u8],
    n: usize,
    decls: &[usize; VARIABLE_ENTRIES],
    types: &[u8; MOST_NODES],
    i: usize,
) -> bool
    requires laid { Laid file.now × (f < functions file.now) }
    requires inside { (12 * n ≤ length part.now) × (i < n) × (n ≤ most_nodes) }
    requires known { Known part.now n × CallsKnown (functions file.now) part.now n }
    requires told { Decls part.now n decls.now }
    ensures { result ≡ agree (want_at file.now f part.now n i) (λ k. get_or types.now k 0) (children part.now i) }
{
    for (k, child) in children_of(part, i) {
        let want = want_of(file, f, part, n, decls, i, k);
        if !is_suited(want, types[child]) {
            return false;
        }
    }
    true
}

// The lowest node of function f's part, of n nodes, with a child of another type than it wants.
pub fn first_mistyped(file: &[u8], f: usize, part: &[u8], n: usize) -> Option<Found>
    requires laid { Laid file.now × (f < functions file.now) }
    requires inside { (12 * n ≤ length part.now) × (n ≤ most_nodes) }
    requires known { Known part.now n × CallsKnown (functions file.now) part.now n }
    ensures { result ≡ first_of (mistyped file.now f part.now n) n }
{
    let decls = check_scopes::decl_table(part, n);
    let mut types = [TYPE_UNSET; MOST_NODES];
    for i in 0..n {
        if !children_agree(file, f, part, n, &decls, &types, i) {
            return Some(Found { place: i, item: 0 });
        }
        types[i] = type_of(file, f, part, n, &decls, i);
    }
    None
}
