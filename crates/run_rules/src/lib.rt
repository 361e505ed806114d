// What the rules do to lent memory: each function takes a running state to the next, and says how the run stands then.
#![tactic(auto)]

pub mod calling;
pub mod gathering;

ghost use Rattle.std.specs.Prelude.{◌≡◌, List, [], ◌∷◌, ◌++◌, ℕ, suc, ◌+◌, ◌≤◌, ◌<◌, length, set};
ghost use Rattle.spec_image.specs.Sizes.{frame_size, slot_room, variable_room};
ghost use Rattle.spec_machine.specs.Values as values;
ghost use Rattle.spec_machine.specs.Program as program;
ghost use Rattle.spec_machine.specs.Machine.{RunEnv, Frame, gather, Saved, running};
ghost use Rattle.spec_machine.specs.Machine as machine;
ghost use Rattle.spec_image.specs.Layout.{filled, frame_words};
ghost use Rattle.spec_image.specs.Core.{core};
ghost use Rattle.state_words.specs.Meaning.{value_is, control_is};
ghost use Rattle.run_rules.specs.StepsTo.{Rest, Describes, Bounds, StepsTo, Holding, HoldingTop};

use state_words::layout::FRAME_LIMIT;
use state_words::{Control, Value};

// The current function with its part's first byte and node count, its callers, its frames, and those of its callers.
#[derive(Clone, Copy)]
pub struct Registers {
    pub function: usize,
    pub start: usize,
    pub count: usize,
    pub callers: usize,
    pub frames: usize,
    pub under: usize,
}

// A step was taken; or its state would pass a limit; or the run has ended but for its last rule; or it has ended by an exception.
#[derive(Clone, Copy)]
pub enum Stepped {
    Went(Control, Registers),
    Full,
    Returned(u32),
    Arith,
    Abort,
}

// Lays a frame without operands, by its kind and two words.
pub fn lay(m: &mut [u32], h: Registers, kind: u32, x: u32, y: u32, c: Control) -> Stepped
    requires { Bounds h m.old }
    ensures { (s : List ℕ) (α : RunEnv) (f : ℕ) (η : List values.Value) (fr : Frame) (K : List Frame) (A : List Saved) (R : Rest) → m.old ≡ core f η K A ++ R α → Describes s h f K A → frame_words fr ≡ filled frame_size (kind ∷ x ∷ y ∷ 0 ∷ []) → StepsTo s result m.old m.new R (running (control_is c) α f η (fr ∷ K) A) }
{
    let n = h.under + h.frames;
    if FRAME_LIMIT <= n {
        return Stepped::Full;
    }
    state_stack::push(m, n, kind, x, y, 0);
    Stepped::Went(
        c,
        Registers {
            frames: h.frames + 1,
            ..h
        },
    )
}

// Takes the top frame off.
pub fn take_off(m: &mut [u32], h: Registers, c: Control) -> Stepped
    requires { Bounds h m.old × (1 ≤ h.frames) }
    ensures { (s : List ℕ) → HoldingTop s m.old h (λ α f η fr K A R. StepsTo s result m.old m.new R (running (control_is c) α f η K A)) }
{
    let frames = h.frames - 1;
    state_stack::pop(m, h.under + frames);
    Stepped::Went(c, Registers { frames, ..h })
}

// Stores a value in variable x.
pub fn store_variable(m: &mut [u32], h: Registers, x: u32, v: Value, c: Control) -> Stepped
    requires { Bounds h m.old × (x < variable_room) }
    ensures { (s : List ℕ) → Holding s m.old h (λ α f η K A R. x < length η → length η ≤ variable_room → StepsTo s result m.old m.new R (running (control_is c) α f (set η x (value_is v)) K A)) }
{
    state_stack::set_variable(m, h.callers, x as usize, v);
    Stepped::Went(c, h)
}

// Stores a value in variable x, and takes the top frame off.
pub fn assign(m: &mut [u32], h: Registers, x: u32, v: Value) -> Stepped
    requires { Bounds h m.old × (1 ≤ h.frames) × (x < variable_room) }
    ensures { (s : List ℕ) → HoldingTop s m.old h (λ α f η fr K A R. x < length η → length η ≤ variable_room → StepsTo s result m.old m.new R (running (machine.exec program.Ref.nop) α f (set η x (value_is v)) K A)) }
{
    state_stack::set_variable(m, h.callers, x as usize, v);
    take_off(m, h, Control::Exec(0))
}

// Stores the operand that follows y values in the top frame, with z nodes waiting after it.
pub fn supply(m: &mut [u32], h: Registers, y: u32, z: u32, v: Value, c: Control) -> Stepped
    requires { Bounds h m.old × (1 ≤ h.frames) × (y < 8) }
    ensures { (s : List ℕ) (α : RunEnv) (f : ℕ) (η : List values.Value) (g : program.Operation) (vs : List values.Value) (e : ℕ) (ns : List ℕ) (K : List Frame) (A : List Saved) (R : Rest) → m.old ≡ core f η (gather g vs (e ∷ ns) ∷ K) A ++ R α → Describes s h f (gather g vs (e ∷ ns) ∷ K) A → length vs + suc (length ns) ≤ slot_room → y ≡ length vs → z ≡ length ns → StepsTo s result m.old m.new R (running (control_is c) α f η (gather g (vs ++ (value_is v ∷ [])) ns ∷ K) A) }
{
    let frames = h.frames - 1;
    state_stack::gain(m, h.under + frames, y, z, v);
    Stepped::Went(c, h)
}
