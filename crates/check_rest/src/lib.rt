// The nodes from the one where the pass over a part stopped: the least of questions 8, 9, 11 and 12 that may fail.
#![tactic(auto)]

ghost use Rattle.std.specs.Prelude.{◌+◌, ◌*◌, ◌≤◌, ◌<◌, length};
ghost use Rattle.check_scopes.specs.Counts.{Named, Decls};
ghost use Rattle.check_rest.specs.Sound.{Sound, SoundBefore};

use records::format::VARIABLE_ENTRIES;
use records::nodes::kind_at;

// The lower of two questions.
pub fn lower(a: u8, b: u8) -> u8
    ensures { (result ≤ a) × (result ≤ b) × (7 ≤ a → 7 ≤ b → 7 ≤ result) × (8 ≤ a → 8 ≤ b → 8 ≤ result) }
{
    a.min(b)
}

// The least of questions 8, 9 and 11 that fails at node i of function f's part, of n nodes, or at a child of it; 12 where none does.
fn node_floor(
    file: &[u8],
    f: usize,
    part: &[u8],
    n: usize,
    decls: &[usize; VARIABLE_ENTRIES],
    i: usize,
) -> u8
    requires inside { (12 * (1 + f) + 12 ≤ length file.now) × (12 * n ≤ length part.now) × (i < n) }
    requires known { Named part.now n × Decls part.now n decls.now }
    ensures { Sound file.now f part.now n i result × (8 ≤ result) × (result ≤ 12) }
{
    if !check_shape::size_ok(part, n, i) {
        return 8;
    }
    let body = (1 + i == n) & check_sorts::is_expression(kind_at(part, i));
    if body | (check_sorts::lowest_wrong(part, n, i, n) < n) {
        return 9;
    }
    if check_scopes::is_outside(file, f, part, n, decls, i) {
        return 11;
    }
    12
}

// The least of questions 8, 9 and 11 that fails in function f's part, of n nodes, where none does before node `from`; 12 where none does.
pub fn floor_from(
    file: &[u8],
    f: usize,
    part: &[u8],
    n: usize,
    decls: &[usize; VARIABLE_ENTRIES],
    from: usize,
) -> u8
    requires inside { (12 * (1 + f) + 12 ≤ length file.now) × (12 * n ≤ length part.now) × (from ≤ n) }
    requires known { Named part.now n × Decls part.now n decls.now }
    requires before { SoundBefore file.now f part.now n from 12 }
    ensures { SoundBefore file.now f part.now n n result × (8 ≤ result) × (result ≤ 12) }
{
    let mut least = 12;
    for i in from..n {
        least = lower(node_floor(file, f, part, n, decls, i), least);
        if least < 9 {
            return 8;
        }
    }
    least
}
