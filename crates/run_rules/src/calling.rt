// Functions entered and left in lent memory, and main's return.
ghost use Rattle.std.specs.Prelude.{◌≡◌, List, [], ◌∷◌, ◌++◌, ℕ, suc, ◌+◌, ◌*◌, ◌≤◌, ◌<◌, length};
ghost use Rattle.records.specs.Format.{most_nodes};
ghost use Rattle.spec_image.specs.Sizes.{caller_room, frame_room, size, slot_room};
ghost use Rattle.records.specs.Fields.{functions, params_of, vars_of, count_of};
ghost use Rattle.records.specs.Parts.{start_of};
ghost use Rattle.spec_machine.specs.Values as values;
ghost use Rattle.spec_machine.specs.Program as program;
ghost use Rattle.spec_machine.specs.Machine.{RunEnv, Frame, gather, Saved, saved, running, entered};
ghost use Rattle.spec_machine.specs.Machine as machine;
ghost use Rattle.spec_machine.specs.File.{fun_of};
ghost use Rattle.spec_image.specs.Image.{saved_frames};
ghost use Rattle.spec_image.specs.Core.{core};
ghost use Rattle.state_words.specs.Meaning.{value_is};
ghost use Rattle.spec_image.specs.Decode.{ref_of};
ghost use Rattle.run_rules.specs.StepsTo.{Rest, Describes, Bounds, Called, Cleared, StepsTo, Holding};
ghost use Rattle.records.specs.Starts.{Starts};

use crate::{Registers, Stepped};
use records::format::MOST_FUNCTIONS;
use records::{count_of, vars_of, wide};
use state_words::layout::SAVED_LIMIT;
use state_words::{Control, Value};

// The word of the body of the function whose part has its first byte at `start`.
pub fn body_of(file: &[u8], start: usize, count: usize) -> u32
    requires { (start + 12 * count ≤ length file.now) × (1 ≤ count) × (count ≤ most_nodes) }
    ensures { (g : ℕ) → start ≡ 12 * start_of file.now g → count ≡ count_of file.now g → ref_of result ≡ (fun_of file.now g).body }
{
    let root = count - 1;
    let kind = file[start + (12 * root + 2)];
    if kind == 6 { 0 } else { 1 + 3 * root as u32 }
}

// Enters function g without arguments.
pub fn enter_none(
    file: &[u8],
    starts: &[usize; MOST_FUNCTIONS],
    m: &mut [u32],
    h: Registers,
    g: u32,
) -> Stepped
    requires { Bounds h m.old × Starts file.now starts.now × (g < functions file.now) }
    ensures { Holding file.now m.old h (λ α f η K A R. params_of file.now g ≡ 0 → StepsTo file.now result m.old m.new R (running (machine.exec (fun_of file.now g).body) α g (entered (fun_of file.now g) []) [] (saved f η K ∷ A))) }
{
    if SAVED_LIMIT <= h.callers {
        return Stepped::Full;
    }
    let function = g as usize;
    let start = starts[function];
    let count = count_of(file, function);
    state_stack::activations::enter_none(
        m,
        h.callers,
        h.frames as u32,
        g,
        wide(vars_of(file, function)),
    );
    Stepped::Went(
        Control::Exec(body_of(file, start, count)),
        Registers {
            function,
            start,
            count,
            callers: h.callers + 1,
            frames: 0,
            under: h.under + h.frames,
        },
    )
}

// Enters function g with the y values of the top frame and one at hand.
pub fn enter(
    file: &[u8],
    starts: &[usize; MOST_FUNCTIONS],
    m: &mut [u32],
    h: Registers,
    g: u32,
    y: usize,
    v: Value,
) -> Stepped
    requires { Bounds h m.old × (1 ≤ h.frames) × Starts file.now starts.now × (g < functions file.now) × (y ≤ slot_room) }
    ensures { (α : RunEnv) (f : ℕ) (η : List values.Value) (k : program.Operation) (vs : List values.Value) (K : List Frame) (A : List Saved) (R : Rest) → m.old ≡ core f η (machine.gather k vs [] ∷ K) A ++ R α → Describes file.now h f (machine.gather k vs [] ∷ K) A → y ≡ length vs → params_of file.now g ≡ suc y → suc y ≤ vars_of file.now g → StepsTo file.now result m.old m.new R (running (machine.exec (fun_of file.now g).body) α g (entered (fun_of file.now g) (vs ++ (value_is v ∷ []))) [] (saved f η K ∷ A)) }
{
    if SAVED_LIMIT <= h.callers {
        return Stepped::Full;
    }
    let function = g as usize;
    let start = starts[function];
    let count = count_of(file, function);
    let frames = h.frames - 1;
    state_stack::activations::enter(
        m,
        h.under + frames,
        h.callers,
        frames as u32,
        g,
        wide(vars_of(file, function)),
        y,
        v,
    );
    Stepped::Went(
        Control::Exec(body_of(file, start, count)),
        Registers {
            function,
            start,
            count,
            callers: h.callers + 1,
            frames: 0,
            under: h.under + frames,
        },
    )
}

// Leaves a function that a function of the file has called, with a value.
pub fn leave(
    file: &[u8],
    starts: &[usize; MOST_FUNCTIONS],
    m: &mut [u32],
    h: Registers,
    v: Value,
) -> Stepped
    requires bounds { Bounds h m.old × (1 ≤ h.callers) × Starts file.now starts.now }
    requires caller { Called file.now h m.old }
    ensures { (α : RunEnv) (f : ℕ) (η : List values.Value) (J : List Frame) (g : ℕ) (θ : List values.Value) (L : List Frame) (A : List Saved) (R : Rest) → m.old ≡ core f η J (saved g θ L ∷ A) ++ R α → Describes file.now h f J (saved g θ L ∷ A) → StepsTo file.now result m.old m.new R (running (machine.val (value_is v)) α g θ L A) }
{
    let c = Control::from(v);
    let callers = h.callers - 1;
    let function = state_stack::activations::caller_function(m, callers) as usize;
    let frames = state_stack::activations::caller_frames(m, callers) as usize;
    state_stack::activations::leave(m, h.under, callers, h.frames);
    Stepped::Went(
        c,
        Registers {
            function,
            start: starts[function],
            count: count_of(file, function),
            callers,
            frames,
            under: h.under - frames,
        },
    )
}

// Leaves the entry function with an int: the environment stays.
pub fn leave_main(m: &mut [u32], h: Registers, word: u32) -> Stepped
    requires { Bounds h m.old }
    ensures { (s : List ℕ) (α : RunEnv) (f : ℕ) (η : List values.Value) (J : List Frame) (R : Rest) → m.old ≡ core f η J [] ++ R α → Describes s h f J [] → StepsTo s result m.old m.new R (machine.returned α word) }
{
    state_stack::head::leave_main(m, h.frames);
    Stepped::Returned(word)
}

// Sets all words of the state to zero.
pub fn clear(m: &mut [u32], n: usize)
    requires { (n ≡ size) × (n ≤ length m.old) }
    ensures { Cleared m.old m.new }
{
    words::zero_at(m, 0, n)
}
