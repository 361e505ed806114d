// A part whose nodes are as questions 4, 7 and 8 want them.
ghost use Rattle.std.specs.Prelude.{◌≡◌, ◌↔◌, ◌+◌, ◌*◌, ◌≤◌, length, IsSome, IfSome};
ghost use Rattle.spec_language.specs.Known.{Known, names_variable};
ghost use Rattle.desk_ways.specs.KnownNode.{known_node};

use records::format::MOST_PARAMETERS;
use records::nodes::{a_at, arity_at, b_at, kind_at, size_at};

// The n nodes of a part, each as questions 4, 7 and 8 want it.
#[derive(Clone, Copy)]
pub struct KnownPart<'a> {
    pub bytes: &'a [u8],
    pub n: usize,
    pub ghost inside: { 12 * n ≤ length bytes.now },
    pub ghost known: { Known bytes.now n },
}

// Whether a node of that kind names a variable; by kind.
#[tactic(auto, unfolding(spec_language::specs::Known::names_variable, spec_language::specs::Scopes::uses_variable))]
fn names_variable(kind: u8) -> bool
    ensures { result ≡ names_variable kind }
{
    matches!(kind, 2 | 8 | 9)
}

// Whether node i is as questions 4, 7 and 8 want it.
fn is_known(part: &[u8], i: usize) -> bool
    requires { 12 * i + 12 ≤ length part.now }
    ensures { result ≡ known_node part.now i }
{
    let kind = kind_at(part, i);
    ((arity_at(part, i) == 0) | (0 < i))
        & ((size_at(part, i) <= i + 1)
            & ((!names_variable(kind) | (b_at(part, i) < 64))
                & ((kind != 5) | (a_at(part, i) <= MOST_PARAMETERS))))
}

// The part's n nodes, where each is as questions 4, 7 and 8 want it.
pub fn known_part(part: &[u8], n: usize) -> Option<KnownPart<'_>>
    requires { 12 * n ≤ length part.now }
    ensures known { IsSome result ↔ Known part.now n }
    ensures same { IfSome result (λ p. (p.bytes.now ≡ part.now) × (p.n ≡ n)) }
{
    if (0..n).all(|i| is_known(part, i)) {
        Some(KnownPart { bytes: part, n })
    } else {
        None
    }
}
