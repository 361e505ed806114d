// Whether the state that a memory holds is fit for an accepted file's program.
#![tactic(auto)]

mod holding;
mod parts;
mod stored;
mod tables;

ghost use Rattle.std.specs.Prelude.{◌≡◌, true, ◌&&◌, List, ◌++◌, ℕ, ◌+◌, ◌*◌, ◌≤◌, ◌<◌, length, get_or};
ghost use Rattle.spec_image.specs.Sizes.{caller_room, entry_at, frame_room, size};
ghost use Rattle.varset.specs.Sets.{has};
ghost use Rattle.records.specs.Fields.{functions, vars_of, count_of};
ghost use Rattle.records.specs.Parts.{part_of};
ghost use Rattle.spec_language.specs.Check.{accepted, check_of};
ghost use Rattle.spec_machine.specs.Machine.{State};
ghost use Rattle.spec_machine.specs.Fit.{WithinLimits};
ghost use Rattle.spec_machine.specs.File.{program_of};
ghost use Rattle.spec_machine.specs.Test.{fit};
ghost use Rattle.spec_image.specs.Image.{image};
ghost use Rattle.spec_image.specs.Decode.{frames_held, activations_to, held_in};
ghost use Rattle.spec_image.specs.Narrow.{Narrow};
ghost use Rattle.state_words.specs.Meaning.{activation_at};
ghost use Rattle.check_summary.specs.Tables.{RowsFilled, TableSays};
ghost use Rattle.fit_state.specs.HoldsState.{HoldsState};
ghost use Rattle.fit_state.specs.Activations.{activation_fit, callers_fit, entry_fit};
ghost use Rattle.fit_state.specs.Meaning.{over_is, OverAnswer, activation_in, frames_to, stored_fit};
ghost use Rattle.fit_state.specs.Running.{RunningIn, FitAnswer};

use crate::holding::variables_hold;
use crate::parts::Parts;
use crate::stored::StoredActivation;
use crate::tables::{MIDDLE_WORDS, MOST_WORDS, SHORT_WORDS, TINY_WORDS, apart_fits, table_fits};
use fit_flow::KnownPart;
use fit_frames::descent::{begin, frames_fit};
use fit_frames::{Received, giving};
use fit_nodes::Part;
use records::format::{MIDDLE_NODES, MOST_FUNCTIONS, RECORD, SHORT_NODES, TINY_NODES, TOO_LONG};
use records::starts::starts_of;
use records::{function_count, result_of, vars_of, wide};
use state_words::activations::{activation_word, frames_held};
use state_words::layout::{ENTRY, TAG_CALL, TAG_RUNNING};
use state_words::{Control, control_of};
use varset::VarSet;

// What stands over an activation's frames: the control, or a callee that gives a result of a type.
#[derive(Clone, Copy)]
enum Over {
    Running(Control),
    Calling(u8),
}

// What stands over the frames of an activation whose variables with values are the set.
fn over_frames(known: &KnownPart<'_>, set: VarSet, over: Over) -> Option<Received>
    ensures { OverAnswer (program_of known.now.part.file.now) known.now.part.function (has set.0) (over_is over) result }
{
    match over {
        Over::Running(c) => begin(known, set, c),
        Over::Calling(t) => Some(giving(set, false, t)),
    }
}

// Whether the activation, one of the part's function, is fit with its frames.
fn activation_in(
    part: &Part<'_>,
    table: &[u64],
    activation: &StoredActivation<'_>,
    over: Over,
) -> bool
    requires table { TableSays part.now.bytes.now part.now.nodes table.now }
    requires variables { activation.now.variables ≡ vars_of part.now.file.now part.now.function }
    ensures { result ≡ stored_fit (program_of part.now.file.now) part.now.function activation.now.memory.now activation.now.place activation.now.variables activation.now.low activation.now.frames (over_is over) }
{
    let decls = part.decls();
    let known = KnownPart {
        part: *part,
        decls: &decls,
        table,
    };
    let Some(set) = variables_hold(&known, activation) else {
        return false;
    };
    let Some(down) = over_frames(&known, set, over) else {
        return false;
    };
    frames_fit(
        &known,
        activation.memory,
        activation.low,
        activation.frames,
        down,
    )
}

// The same, with a table that is filled for it unless it is that of the function already.
fn activation_with(
    part: &Part<'_>,
    table: &mut [u64],
    last: usize,
    activation: &StoredActivation<'_>,
    over: Over,
) -> bool
    requires table { (5 * part.now.nodes ≤ length table.old) × (last ≡ part.now.function → RowsFilled part.now.bytes.now table.old part.now.nodes) }
    requires variables { activation.now.variables ≡ vars_of part.now.file.now part.now.function }
    ensures value { result ≡ stored_fit (program_of part.now.file.now) part.now.function activation.now.memory.now activation.now.place activation.now.variables activation.now.low activation.now.frames (over_is over) }
    ensures filled { RowsFilled part.now.bytes.now table.new part.now.nodes }
{
    if last == part.function {
        return activation_in(part, table, activation, over);
    }
    check_summary::fill(part.bytes, part.nodes, table);
    activation_in(part, table, activation, over)
}

// Whether the activation over `place` activations is fit with its frames, the last of the first `high`.
fn activation_fits(
    parts: &Parts<'_>,
    table: &mut [u64],
    last: usize,
    m: &[u32],
    place: usize,
    high: usize,
    over: Over,
) -> bool
    requires room { (size ≤ length m.now) × (place < caller_room) × (frames_held (activation_in m.now place) ≤ high) × (high ≤ frame_room) }
    requires table { ((g : ℕ) → g < functions parts.now.file.now → 5 * count_of parts.now.file.now g ≤ length table.old) × (last < functions parts.now.file.now → RowsFilled (part_of parts.now.file.now last) table.old (count_of parts.now.file.now last)) }
    ensures value { result ≡ activation_fit (program_of parts.now.file.now) (over_is over) (activation_in m.now place) (frames_to m.now high) }
    ensures filled { (g : ℕ) → g ≡ get_or m.now (activation_at place + 0) 0 → result ≡ true → RowsFilled (part_of parts.now.file.now g) table.new (count_of parts.now.file.now g) }
{
    let f = activation_word(m, place, 0) as usize;
    let k = activation_word(m, place, 1) as usize;
    let v = activation_word(m, place, 2);
    if function_count(parts.file) <= f {
        return false;
    }
    if v != wide(vars_of(parts.file, f)) {
        return false;
    }
    let part = parts.part(f);
    let activation = StoredActivation {
        memory: m,
        place,
        variables: v,
        low: high - k,
        frames: k,
    };
    activation_with(&part, table, last, &activation, over)
}

// Whether the first n activations are fit as the callers of function f, whose table it is, with the first `high` frames.
fn callers_fit(
    parts: &Parts<'_>,
    table: &mut [u64],
    m: &[u32],
    n: usize,
    high: usize,
    f: usize,
) -> bool
    requires room { (size ≤ length m.now) × (n ≤ caller_room) × (high ≡ held_in m.now n) × (high ≤ frame_room) × (f < functions parts.now.file.now) }
    requires table { ((g : ℕ) → g < functions parts.now.file.now → 5 * count_of parts.now.file.now g ≤ length table.old) × RowsFilled (part_of parts.now.file.now f) table.old (count_of parts.now.file.now f) }
    ensures { result ≡ callers_fit (program_of parts.now.file.now) (get_or m.now entry_at 0) f (activations_to m.now n) (frames_to m.now high) }
{
    let mut g = f;
    let mut top = high;
    for a in (0..n).rev() {
        let t = result_of(parts.file, g);
        if !activation_fits(parts, table, g, m, a, top, Over::Calling(t)) {
            return false;
        }
        g = activation_word(m, a, 0) as usize;
        top -= activation_word(m, a, 1) as usize;
    }
    g == m[ENTRY] as usize
}

// Whether the running state that the memory holds is fit for the program of the file, with a table for its parts.
fn running_fits(file: &[u8], table: &mut [u64], m: &[u32]) -> bool
    requires file { RunningIn file.now m.now }
    requires table { (g : ℕ) → g < functions file.now → 5 * count_of file.now g ≤ length table.old }
    ensures { FitAnswer file.now m.now result }
{
    let n = m[2] as usize;
    let high = frames_held(m, n);
    let starts = starts_of(file);
    let parts = Parts {
        file,
        starts: &starts,
    };
    let a = n - 1;
    let c = control_of(m[3], m[4]);
    if !activation_fits(&parts, table, MOST_FUNCTIONS, m, a, high, Over::Running(c)) {
        return false;
    }
    let f = activation_word(m, a, 0) as usize;
    let k = activation_word(m, a, 1) as usize;
    callers_fit(&parts, table, m, a, high - k, f)
}

// Whether the run of the state that the memory holds was started with main, which takes no argument.
fn entry_fits(m: &[u32]) -> bool
    requires { size ≤ length m.now }
    ensures { (b : List ℕ) → check_of b ≡ accepted → (s : State) (R : List ℕ) → m.now ≡ image s ++ R → WithinLimits s → result ≡ entry_fit (program_of b) s }
{
    (m[ENTRY] == 0) & (m[0] != TAG_CALL)
}

// Whether the state that the memory holds is fit for the program of the file.
pub fn fits(file: &[u8], m: &[u32]) -> bool
    requires { (check_of file.now ≡ accepted) × (size ≤ length m.now) × HoldsState m.now }
    ensures { (s : State) (R : List ℕ) → m.now ≡ image s ++ R → WithinLimits s → Narrow s → result ≡ fit (program_of file.now) s }
{
    if !entry_fits(m) {
        return false;
    }
    if m[0] != TAG_RUNNING {
        return true;
    }
    let functions = function_count(file);
    if file.len() <= RECORD * (1 + functions + TINY_NODES) {
        return table_fits::<TINY_WORDS>(file, m);
    }
    let k = file.len() / TOO_LONG;
    if file.len() <= RECORD * (1 + functions + SHORT_NODES) {
        return apart_fits::<SHORT_WORDS>(file, m, k);
    }
    if file.len() <= RECORD * (1 + functions + MIDDLE_NODES) {
        return apart_fits::<MIDDLE_WORDS>(file, m, k);
    }
    apart_fits::<MOST_WORDS>(file, m, k)
}
