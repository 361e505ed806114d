// One pass over the nodes of a part before it is judged: questions 7 and 10, and the table of decls.
ghost use Rattle.std.specs.Prelude.{◌≡◌, true, ◌+◌, ◌*◌, ◌≤◌, ◌<◌, length, get_or};
ghost use Rattle.records.specs.Fields.{functions, vars_of, kind_at};
ghost use Rattle.records.specs.Parts.{Laid};
ghost use Rattle.spec_language.specs.Nodes.{node_ok};
ghost use Rattle.check_scopes.specs.Counts.{Noted};
ghost use Rattle.check_pass.specs.Limits.{a_limits, b_limits};
ghost use Rattle.check_pass.specs.Surveyed.{Surveyed};

use check_scopes::Declared;
use records::format::{KINDS, NODE_MARK, OPERATORS, VARIABLE_ENTRIES};
use records::nodes::{a_at, b_at, kind_at};
use records::{Found, mark_at, vars_of, wide};
use varset::VarSet;

// The least question that may fail where question 10 found this and question 7 nothing; 15 where it found nothing either.
fn past_seven(found: Option<Found>) -> u8
    ensures { (10 < result → found ≡ None) × (8 ≤ result) × (result ≤ 15) }
{
    match found {
        Some(_) => 10,
        None => 15,
    }
}

// The number that field a of a node of that kind is below; 0 for calls, decls and what is no kind; by kind.
fn a_limit(kind: u8) -> u8
    ensures { result ≡ get_or a_limits kind 0 }
{
    match kind {
        3 => OPERATORS,
        5 => 0,
        9 => 0,
        0..=15 => 1,
        _ => 0,
    }
}

// The number that field b is below, in a function of v variables; 0 for calls, decls and what is no kind; by kind.
fn b_limit(kind: u8, v: u64) -> u64
    ensures { result ≡ get_or (b_limits v) kind 0 }
{
    match kind {
        0 => 4294967296,
        1 => 2,
        2 | 8 => v,
        5 | 9 => 0,
        0..=15 => 1,
        _ => 0,
    }
}

// The limits of field a for all kinds.
fn a_limits() -> [u8; KINDS]
    ensures { result ≡ a_limits }
{
    [
        a_limit(0),
        a_limit(1),
        a_limit(2),
        a_limit(3),
        a_limit(4),
        a_limit(5),
        a_limit(6),
        a_limit(7),
        a_limit(8),
        a_limit(9),
        a_limit(10),
        a_limit(11),
        a_limit(12),
        a_limit(13),
        a_limit(14),
        a_limit(15),
    ]
}

// The limits of field b for all kinds, in function f.
fn b_limits(file: &[u8], f: usize) -> [u64; KINDS]
    requires { 12 * (1 + f) + 12 ≤ length file.now }
    ensures { result ≡ b_limits (vars_of file.now f) }
{
    let v = wide(vars_of(file, f)) as u64;
    [
        b_limit(0, v),
        b_limit(1, v),
        b_limit(2, v),
        b_limit(3, v),
        b_limit(4, v),
        b_limit(5, v),
        b_limit(6, v),
        b_limit(7, v),
        b_limit(8, v),
        b_limit(9, v),
        b_limit(10, v),
        b_limit(11, v),
        b_limit(12, v),
        b_limit(13, v),
        b_limit(14, v),
        b_limit(15, v),
    ]
}

// Whether the limits alone show that question 7 passes at node i of function f's part, which is then no decl.
fn within_limits(
    file: &[u8],
    f: usize,
    part: &[u8],
    i: usize,
    tops: &[u8; KINDS],
    limits: &[u64; KINDS],
) -> bool
    requires inside { 12 * i + 12 ≤ length part.now }
    requires limits { (tops.now ≡ a_limits) × (limits.now ≡ b_limits (vars_of file.now f)) }
    ensures { result ≡ true → (node_ok file.now f part.now i ≡ true) × (kind_at part.now i ≡ 9 → ⊥) }
{
    let kind = wide(kind_at(part, i)) as usize;
    if kind < KINDS {
        let b = b_at(part, i) as u64;
        (mark_at(part, i) == NODE_MARK) & (a_at(part, i) < tops[kind]) & (b < limits[kind])
    } else {
        false
    }
}

// The lower of questions 7 and 10 that finds something in the part of function f, of n nodes, 15 where none does; past 7 the table has its decls.
pub fn survey_part(
    file: &[u8],
    f: usize,
    part: &[u8],
    n: usize,
    table: &mut [usize; VARIABLE_ENTRIES],
) -> u8
    requires laid { Laid file.now × (f < functions file.now) }
    requires inside { 12 * n ≤ length part.now }
    requires empty { Noted part.now 0 table.old }
    ensures { 7 < result → Surveyed file.now f part.now n table.new result }
{
    let mut d = Declared {
        seen: VarSet::empty(),
        twice: VarSet::empty(),
    };
    let tops = a_limits();
    let limits = b_limits(file, f);
    for i in 0..n {
        if !within_limits(file, f, part, i, &tops, &limits) {
            if !check_shape::node_ok(file, f, part, i) {
                return 7;
            }
            d = check_scopes::count_decl(part, i, d);
            check_scopes::note_decl(part, i, table);
        }
    }
    past_seven(check_scopes::lowest_undeclared(file, f, part, n, d))
}
