// What each expression of a part needs and what each statement does, in a table of five words a node, filled in one pass.
#![tactic(auto)]

pub mod rows;

ghost use Rattle.std.specs.Prelude.{◌≡◌, true, false, [], ◌∷◌, ◌↔◌, ◌+◌, ◌*◌, ◌≤◌, ◌<◌, length};
ghost use Rattle.records.specs.Format.{most_variables};
ghost use Rattle.words.specs.Blocks.{puts};
ghost use Rattle.varset.specs.Sets.{has, Sub};
ghost use Rattle.records.specs.Fields.{kind_at, b_at};
ghost use Rattle.spec_language.specs.Sorts.{is_expression};
ghost use Rattle.spec_language.specs.Statements.{Statement, reads_of, statement_at};
ghost use Rattle.spec_language.specs.Known.{WellFormed};
ghost use Rattle.check_summary.specs.Summary.{Needs};
ghost use Rattle.check_summary.specs.Rows.{Sums};
ghost use Rattle.check_summary.specs.Tables.{Range, word_of, fails_in, returns_in, RowSays, RowsFilled};
ghost use Rattle.check_summary.specs.Flowed.{FlowedIs};

use crate::rows::Row;
use records::minus;
use records::nodes::{b_at, kind_at, prior, size_at};
use varset::VarSet;

// The first word of a row.
fn flags_of(fails: bool, ends: bool) -> u64
    ensures { (fails_in result ≡ fails) × (returns_in result ≡ ends) }
{
    if fails {
        return if ends { 3 } else { 1 };
    }
    if ends { 2 } else { 0 }
}

// The row of node i.
pub fn row_at(table: &[u64], i: usize) -> Row
    requires { 5 * i + 5 ≤ length table.now }
    ensures flags { (result.fails ≡ fails_in (word_of table.now i 0)) × (result.returned ≡ returns_in (word_of table.now i 0)) }
    ensures sets { (result.needs.0 ≡ word_of table.now i 1) × (result.adds.0 ≡ word_of table.now i 2) × (result.drops.0 ≡ word_of table.now i 3) × (result.declared.0 ≡ word_of table.now i 4) }
{
    let at = 5 * i;
    let flags = table[at + 0];
    Row {
        fails: flags % 2 == 1,
        returned: 2 <= flags,
        needs: VarSet(table[at + 1]),
        adds: VarSet(table[at + 2]),
        drops: VarSet(table[at + 3]),
        declared: VarSet(table[at + 4]),
    }
}

// What the expression at node i needs.
pub fn needs_at(table: &[u64], i: usize) -> VarSet
    requires { 5 * i + 5 ≤ length table.now }
    ensures { result.0 ≡ word_of table.now i 1 }
{
    VarSet(table[5 * i + 1])
}

// The row of node i stored.
fn put_row(table: &mut [u64], i: usize, flags: u64, r: Row)
    requires { 5 * i + 5 ≤ length table.old }
    ensures { table.new ≡ puts table.old (5 * i) 0 (flags ∷ r.needs.0 ∷ r.adds.0 ∷ r.drops.0 ∷ r.declared.0 ∷ []) }
{
    let at = 5 * i;
    table[at + 0] = flags;
    table[at + 1] = r.needs.0;
    table[at + 2] = r.adds.0;
    table[at + 3] = r.drops.0;
    table[at + 4] = r.declared.0;
}

// The variable that node i reads itself.
fn own_read(part: &[u8], i: usize) -> VarSet
    requires { (12 * i + 12 ≤ length part.now) × (kind_at part.now i ≡ 2 → b_at part.now i < most_variables) }
    ensures { Range part.now i (i + 1) result.0 }
{
    if kind_at(part, i) == 2 {
        VarSet::empty().insert(b_at(part, i))
    } else {
        VarSet::empty()
    }
}

// What the expression at node i needs, from the rows of the nodes before it.
#[tactic(auto, using(crate::proofs::Filling::in_part))]
fn expression_needs(part: &[u8], n: usize, table: &[u64], i: usize) -> VarSet
    requires part { WellFormed part.now n × (i < n) × (is_expression (kind_at part.now i) ≡ true) }
    requires table { RowsFilled part.now table.now i × (5 * n ≤ length table.now) }
    ensures { Needs (reads_of part.now i) result.0 }
{
    let mut set = own_read(part, i);
    let end = minus(i + 1, size_at(part, i));
    let mut low = i;
    // A while: the part says how far each step goes, so that a for has no range to go through.
    while end < low {
        let c = low - 1;
        set = set.union(needs_at(table, c));
        low = minus(low, size_at(part, c));
    }
    set
}

// What the statement at node i does, from the rows of the nodes before it; by kind.
#[tactic(auto, using(crate::proofs::Filling::in_part, crate::proofs::Filling::after_child, crate::proofs::Filling::held))]
fn statement_row(part: &[u8], n: usize, table: &[u64], i: usize) -> Row
    requires part { WellFormed part.now n × (i < n) × (is_expression (kind_at part.now i) ≡ false) }
    requires table { RowsFilled part.now table.now i × (5 * n ≤ length table.now) }
    ensures { Sums (statement_at part.now i) result }
{
    let kind = kind_at(part, i);
    match kind {
        7 => {
            let last = i - 1;
            let first = prior(part, last);
            let before = row_at(table, first);
            let after = row_at(table, last);
            crate::rows::in_sequence(before, after)
        }
        8 => {
            let needs = needs_at(table, i - 1);
            let adds = VarSet::empty().insert(b_at(part, i));
            crate::rows::plain(needs, adds, false)
        }
        9 => {
            let inner = row_at(table, i - 1);
            crate::rows::in_scope(inner, b_at(part, i))
        }
        10 => {
            let last = i - 1;
            let first = prior(part, last);
            let condition = needs_at(table, prior(part, first));
            let before = row_at(table, first);
            let after = row_at(table, last);
            crate::rows::in_branches(condition, before, after)
        }
        11 => {
            let last = i - 1;
            let condition = needs_at(table, prior(part, last));
            let body = row_at(table, last);
            crate::rows::in_loop(condition, body)
        }
        12 => {
            let needs = needs_at(table, i - 1);
            let all = VarSet::full();
            crate::rows::plain(needs, all, true)
        }
        13 => {
            let needs = needs_at(table, i - 1);
            crate::rows::plain(needs, VarSet::empty(), false)
        }
        14 => {
            let needs = needs_at(table, i - 1);
            crate::rows::plain(needs, VarSet::empty(), false)
        }
        _ => {
            let none = VarSet::empty();
            crate::rows::plain(none, none, false)
        }
    }
}

// Stores the row of node i after those of the nodes before it.
#[tactic(auto, using(crate::proofs::Filling::in_part))]
fn add_row(part: &[u8], n: usize, table: &mut [u64], i: usize)
    requires part { WellFormed part.now n × (i < n) }
    requires table { RowsFilled part.now table.old i × (5 * n ≤ length table.old) }
    ensures { RowsFilled part.now table.new (i + 1) }
{
    let kind = kind_at(part, i);
    if check_sorts::is_expression(kind) {
        let needs = expression_needs(part, n, table, i);
        let r = crate::rows::plain(needs, VarSet::empty(), false);
        return put_row(table, i, 0, r);
    }
    let r = statement_row(part, n, table, i);
    let flags = flags_of(r.fails, r.returned);
    put_row(table, i, flags, r)
}

// Fills the rows of the n nodes of a part.
#[tactic(auto, using(crate::proofs::Stored::none_filled))]
pub fn fill(part: &[u8], n: usize, table: &mut [u64])
    requires { WellFormed part.now n × (5 * n ≤ length table.old) }
    ensures { RowsFilled part.now table.new n }
{
    for i in 0..n {
        add_row(part, n, table, i);
    }
}

// Whether every read of a statement finds a value, and the variables that have a value after it. No Option: what is left is promised
// where a read finds none, too.
#[derive(Clone, Copy)]
pub struct Flowed {
    pub ok: bool,
    pub left: VarSet,
}

// Whether each member of one set is one of another.
pub fn is_within(inner: VarSet, outer: VarSet) -> bool
    ensures { result ≡ true ↔ Sub (has inner.0) (has outer.0) }
{
    inner.minus(outer).is_empty()
}

// How values flow through the statement at node i, by its row.
pub fn row_through(table: &[u64], i: usize, set: VarSet) -> Flowed
    requires { 5 * i + 5 ≤ length table.now }
    ensures { (s : Statement) → RowSays s table.now i → FlowedIs s (has set.0) result }
{
    let row = row_at(table, i);
    let held = is_within(row.needs, set);
    Flowed {
        ok: !row.fails & held,
        left: set.minus(row.drops).union(row.adds),
    }
}
