// Names by number, and the ends of wires.
ghost use Rattle.std.specs.Prelude.{◌≡◌};
ghost use Rattle.drawing.specs.declared.ends.WireEnd.TheVariants.{Own, Child};

use drawing::ends::WireEnd;
use names::name::Name;

// A name of two letters; different numbers have different ones.
pub fn numbered(k: u8) -> Option<Name> {
    Name::new(&[b'a' + k % 26, b'a' + k / 26 % 26])
}

// A pin of the block itself.
pub fn own(pin: u8) -> WireEnd
    ensures is_own { result ≡ Own pin }
{
    WireEnd::Own { pin }
}

// A pin of a child.
pub fn child(name: Name, pin: u8) -> WireEnd
    ensures is_of_the_child { result ≡ Child name pin }
{
    WireEnd::Child { name, pin }
}
