// The ends of a wire as a netlist writes them.
ghost use Rattle.std.specs.Prelude.{ℕ, List, MatchOption};
ghost use Rattle.grammar.specs.Fields.{Pointed, EndOf};

use drawing::ends::WireEnd;
use names::name::Name;

// What stands before the point of a wire end, and the pin that follows it.
#[derive(Clone, Copy)]
struct Pinned<'a> {
    child: &'a [u8],
    pin: u8,
}

fn pinned_of(text: &[u8]) -> Option<Pinned<'_>>
    ensures parts_it_or_refuses { MatchOption result ((child : List ℕ) (k : ℕ) → Pointed child k text.now → ⊥) (λ p. Pointed p.child.now p.pin text.now) }
{
    match text {
        [child @ .., b'.', digit @ b'0'..=b'7'] => Some(Pinned {
            child,
            pin: *digit - b'0',
        }),
        _ => None,
    }
}

// The wire end that a text writes: a child's name, or a hyphen for the block itself; a point; and a pin digit.
pub(crate) fn wire_end(text: &[u8]) -> Option<WireEnd>
    ensures reads_or_refuses { MatchOption result ((e : WireEnd) → EndOf e text.now → ⊥) (λ e. EndOf e text.now) }
{
    let Pinned { child, pin } = pinned_of(text)?;
    if child == b"-".as_slice() {
        return Some(WireEnd::Own { pin });
    }
    let name = Name::new(child)?;
    Some(WireEnd::Child { name, pin })
}
