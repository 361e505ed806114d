// A node reached, and a node whose operands are gathered: a value at hand, or a frame with the operands that wait.
ghost use Rattle.std.specs.Prelude.{◌≡◌, List, [], ◌∷◌, ◌++◌, ℕ, ◌+◌, ◌*◌, ◌≤◌, ◌<◌, length, replicate};
ghost use Rattle.records.specs.Format.{most_nodes};
ghost use Rattle.spec_image.specs.Sizes.{frame_size, slot_room};
ghost use Rattle.records.specs.Fields.{size_at};
ghost use Rattle.records.specs.Children.{walk};
ghost use Rattle.spec_machine.specs.Values as values;
ghost use Rattle.spec_machine.specs.Program as program;
ghost use Rattle.spec_machine.specs.Machine.{RunEnv, Frame, gather, Saved, running, reach_l};
ghost use Rattle.spec_machine.specs.Machine as machine;
ghost use Rattle.spec_machine.specs.File.{backwards, look_at};
ghost use Rattle.spec_image.specs.Layout.{filled, frame_words};
ghost use Rattle.spec_image.specs.Core.{core};
ghost use Rattle.state_words.specs.Meaning.{control_is};
ghost use Rattle.run_rules.specs.StepsTo.{Rest, Describes, Bounds, StepsTo};

use crate::{Registers, Stepped};
use records::nodes::{b_at, kind_at};
use state_words::Control;
use state_words::layout::FRAME_LIMIT;

// What is reached at node i: a constant's value, or the node to evaluate; by kind.
pub fn reach(part: &[u8], i: u32) -> Control
    requires { 12 * i + 12 ≤ length part.now }
    ensures { control_is result ≡ reach_l i (look_at part.now i) }
{
    let at = i as usize;
    let kind = kind_at(part, at);
    match kind {
        0 => Control::Int(b_at(part, at)),
        1 => Control::Truth(b_at(part, at) == 1),
        15 => Control::Nothing,
        _ => Control::Eval(i),
    }
}

// Lays a frame that gathers the operands at k nodes, the last of them at `last`, and reaches the first.
pub fn gather(
    part: &[u8],
    m: &mut [u32],
    h: Registers,
    kind: u32,
    x: u32,
    k: u32,
    last: usize,
) -> Stepped
    requires { Bounds h m.old × (1 ≤ k) × (k ≤ 8) × (12 * last + 12 ≤ length part.now) × (last < most_nodes) }
    ensures { (s : List ℕ) (α : RunEnv) (f : ℕ) (η : List values.Value) (g : program.Operation) (e : ℕ) (ns : List ℕ) (K : List Frame) (A : List Saved) (R : Rest) → m.old ≡ core f η K A ++ R α → Describes s h f K A → ((z : ℕ) → z ≤ slot_room → frame_words (machine.gather g [] (replicate z 0)) ≡ filled frame_size (kind ∷ x ∷ 0 ∷ z ∷ [])) → backwards (walk (size_at part.now) k last) [] ≡ e ∷ ns → StepsTo s result m.old m.new R (running (reach_l e (look_at part.now e)) α f η (machine.gather g [] ns ∷ K) A) }
{
    let n = h.under + h.frames;
    if FRAME_LIMIT <= n {
        return Stepped::Full;
    }
    let first = state_stack::top::push_gather(m, part, n, kind, x, k, last);
    Stepped::Went(
        reach(part, first as u32),
        Registers {
            frames: h.frames + 1,
            ..h
        },
    )
}
