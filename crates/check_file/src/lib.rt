// The check of a procedure file: questions 1 to 14 in order.
#![tactic(auto)]

mod sizes;

ghost use Rattle.std.specs.Prelude.{◌≡◌, true, ◌||◌, ℕ, ◌+◌, ◌*◌, ◌-◌, ◌≤◌, ◌<◌, eqb, length, get_or};
ghost use Rattle.records.specs.Format.{most_functions, most_nodes, most_variables, most_records, longest_file};
ghost use Rattle.varset.specs.Lowest.{pick};
ghost use Rattle.records.specs.Fields.{functions};
ghost use Rattle.records.specs.Parts.{Laid};
ghost use Rattle.records.specs.Search.{At, first_in};
ghost use Rattle.spec_language.specs.Records.{header_ok, records_ok};
ghost use Rattle.spec_language.specs.Nodes.{answers};
ghost use Rattle.spec_language.specs.Check.{first_refusal, part_questions, in_part, check_of};
ghost use Rattle.spec_language.specs.Known.{Known, CallsKnown, WellFormed};
ghost use Rattle.check_file.specs.Answers.{refusal_of, says, Small};
ghost use Rattle.check_file.specs.Stages.{from_four, PassedBefore, Ready, TableRoom, AnswersTo};

use records::format::SHORTEST_FILE;
use records::{Found, count_of, function_count, shift_by};

// A refusal: the question that fails, the record where it does, and the item that it names.
#[derive(Clone, Copy)]
pub struct Refusal {
    pub question: u8,
    pub place: usize,
    pub item: u32,
}

impl Refusal {
    // The refusal of a file or a memory as a whole.
    pub fn whole(question: u8) -> Refusal
        ensures { result ≡ refusal_of question 0 0 }
    {
        Refusal {
            question,
            place: 0,
            item: 0,
        }
    }
}

// What fails question q, from 7 to 14, in the part of function f, which has n nodes; for 13 and 14 the table is room for summaries.
fn answer_in(
    file: &[u8],
    q: u8,
    f: usize,
    part: &[u8],
    n: usize,
    table: &mut [u64],
) -> Option<Found>
    requires laid { Laid file.now × (f < functions file.now) }
    requires inside { (12 * n ≤ length part.now) × (1 ≤ n) × (n ≤ most_nodes) × (7 ≤ q) }
    requires known { (9 < q → Known part.now n × CallsKnown (functions file.now) part.now n) × (12 < q → WellFormed part.now n × (5 * n ≤ length table.old)) }
    ensures exact { result ≡ get_or (answers file.now f part.now n) (q - 7) None }
    ensures small { (i x : ℕ) → result ≡ At i x → (i < n) × (x < most_variables) }
{
    match q {
        7 => check_shape::first_wrong_node(file, f, part, n),
        8 => check_shape::first_wrong_size(part, n),
        9 => check_sorts::first_misplaced(part, n),
        10 => check_scopes::first_undeclared(file, f, part, n),
        11 => check_scopes::first_outside(file, f, part, n),
        12 => check_types::first_mistyped(file, f, part, n),
        13 => check_flow::first_lacking(file, f, part, n, table),
        14 => check_flow::not_returning(part, n, table),
        _ => None,
    }
}

// The record that the places of question q in function f are counted from.
fn origin(q: u8, f: usize, start: usize) -> usize
    requires { f < most_functions }
    ensures { result ≡ pick (eqb q 10 || eqb q 14) (1 + f) start }
{
    match q {
        10 => 1 + f,
        14 => 1 + f,
        _ => start,
    }
}

// What fails question q, from 7 to 14, in the first function where anything does.
fn first_in_parts(file: &[u8], q: u8, table: &mut [u64]) -> Option<Found>
    requires laid { Laid file.now × (length file.now ≤ longest_file) × (7 ≤ q) }
    requires known { Ready file.now q × (12 < q → TableRoom file.now (length table.old)) }
    ensures exact { result ≡ first_in (in_part q file.now) (functions file.now) 0 }
    ensures small { (i x : ℕ) → result ≡ At i x → (i < most_records) × (x < most_variables) }
{
    let functions = function_count(file);
    let mut start = 1 + functions;
    for f in 0..functions {
        let n = count_of(file, f);
        let a = 12 * start;
        let e = 12 * (start + n);
        let found = answer_in(file, q, f, &file[a..e], n, table);
        if let Some(found) = shift_by(found, origin(q, f, start)) {
            return Some(found);
        }
        start += n;
    }
    None
}

// The questions from one to before another, where all before them pass.
fn ask(file: &[u8], from: u8, end: u8, table: &mut [u64]) -> Result<(), Refusal>
    requires laid { Laid file.now × (length file.now ≤ longest_file) × (7 ≤ from) × (end ≤ 15) }
    requires known { PassedBefore file.now from × (13 < end → TableRoom file.now (length table.old)) }
    ensures exact { AnswersTo file.now end result }
    ensures small { Small result }
{
    for question in from..end {
        if let Some(Found { place, item }) = first_in_parts(file, question, table) {
            return Err(Refusal {
                question,
                place,
                item,
            });
        }
    }
    Ok(())
}

// Questions 7 to 14: those from the least that may fail on.
fn check_parts(file: &[u8]) -> Result<(), Refusal>
    requires { Laid file.now × (length file.now ≤ longest_file) }
    ensures exact { says result ≡ first_refusal (part_questions file.now 8 7) }
    ensures small { Small result }
{
    let least = sizes::file_floor(file);
    if 14 < least {
        return Ok(());
    }
    ask(file, least, 13, &mut [0u64; 1])?;
    sizes::check_flows(file, sizes::greater(least, 13))
}

// Questions 4 to 14.
fn check_functions(file: &[u8]) -> Result<(), Refusal>
    requires { (36 ≤ length file.now) × (header_ok file.now ≡ true) × (records_ok file.now ≡ true) }
    ensures exact { says result ≡ first_refusal (from_four file.now) }
    ensures small { Small result }
{
    let functions = function_count(file);
    if let Some(Found { place, item }) = check_shape::first_function(file, functions) {
        return Err(Refusal {
            question: 4,
            place: 1 + place,
            item,
        });
    }
    if !check_header::sum_ok(file, functions) {
        return Err(Refusal::whole(5));
    }
    if !check_header::main_ok(file) {
        return Err(Refusal {
            place: 1,
            ..Refusal::whole(6)
        });
    }
    check_parts(file)
}

// Whether the file passes questions 1 to 14; else the first question that it fails, with its place and item.
pub fn check(file: &[u8]) -> Result<(), Refusal>
    ensures exact { says result ≡ check_of file.now }
    ensures small { Small result }
{
    let len = file.len();
    if len % 12 != 0 {
        return Err(Refusal::whole(1));
    }
    if len < SHORTEST_FILE {
        return Err(Refusal::whole(1));
    }
    if !check_header::header_ok(file) {
        return Err(Refusal::whole(2));
    }
    if !check_header::records_ok(file) {
        return Err(Refusal::whole(3));
    }
    check_functions(file)
}
