// Whether the variables of an activation hold what they may, and which of them hold values.
ghost use Rattle.std.specs.Prelude.{◌≡◌, ℕ, ◌<◌, eqb};
ghost use Rattle.records.specs.Format.{most_variables};
ghost use Rattle.varset.specs.Lowest.{pick};
ghost use Rattle.varset.specs.Sets.{has, with};
ghost use Rattle.records.specs.Fields.{vars_of};
ghost use Rattle.spec_machine.specs.Program.{type_of_var};
ghost use Rattle.spec_machine.specs.File.{program_of};
ghost use Rattle.spec_machine.specs.Test.{holds_typed};
ghost use Rattle.spec_image.specs.Decode.{value_of};
ghost use Rattle.fit_state.specs.Meaning.{variables_in, VariablesAnswer};

use crate::stored::StoredActivation;
use fit_flow::KnownPart;
use fit_frames::operands::tag_type;
use state_words::activations::activation_word;
use varset::VarSet;

// Whether a value, by the first of its words, is one that variable x holds.
fn variable_holds(known: &KnownPart<'_>, tag: u32, x: u32) -> bool
    requires { x < vars_of known.now.part.file.now known.now.part.function }
    ensures { (w : ℕ) → result ≡ holds_typed (value_of tag w) (type_of_var ((program_of known.now.part.file.now).fun known.now.part.function) x) }
{
    if tag == 0 {
        return true;
    }
    tag_type(tag) == known.part.variable_type(known.decls, x)
}

// The set with x added where the value, by the first of its words, is not nothing.
fn with_value(set: VarSet, tag: u32, x: u32) -> VarSet
    requires { x < most_variables }
    ensures { has result.0 ≡ pick (eqb tag 0) (has set.0) (with (has set.0) x) }
{
    if tag == 0 {
        return set;
    }
    set.insert(x)
}

// The variables of the activation that hold values, where each holds what it may.
pub fn variables_hold(known: &KnownPart<'_>, activation: &StoredActivation<'_>) -> Option<VarSet>
    requires { activation.now.variables ≡ vars_of known.now.part.file.now known.now.part.function }
    ensures { VariablesAnswer (program_of known.now.part.file.now) known.now.part.function (variables_in activation.now.memory.now activation.now.place activation.now.variables) result }
{
    let mut set = VarSet::empty();
    for x in 0..activation.variables {
        let tag = activation_word(activation.memory, activation.place, 8 + x as usize * 2);
        if !variable_holds(known, tag, x) {
            return None;
        }
        set = with_value(set, tag, x);
    }
    Some(set)
}
