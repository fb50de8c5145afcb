// What every kind of part does, and the rules that it keeps.
ghost use Rattle.std.specs.Prelude.{◌≡◌};
ghost use Rattle.part.specs.Kind.{Kind, Rules};

use clock::clock::Clock;

// What a part puts on the bus when it fires. An empty pin set means that it fires silently.
#[derive(Clone, Copy, PartialEq, Eq, Debug)]
pub struct Output {
    // kept: no Option: a pin set may be empty, and public promises name both numbers
    pub pins: u8,
    pub value: u8,
}

// A kind of part, over a clock. None of its methods refuses.
pub trait Part<C: Clock>: Copy {
    // what the methods mean
    ghost kind: { Kind C Self };

    // the states that a session may open with, and those that follow them
    ghost sound: { Self → Type 0 };

    fn advance(&self) -> Option<C>
        ensures is_the_advance { result ≡ kind.advance self.now };

    fn output(&self) -> Output
        ensures is_the_output { result ≡ kind.output self.now };

    fn internal(&mut self)
        ensures stores_the_next_state { self.new ≡ kind.internal self.old };

    // kept: three arguments, since each kind's function in specs/ takes them so, and this is the public interface of parts
    fn external(&mut self, elapsed: C, pins: u8, value: u8)
        ensures stores_the_next_state { self.new ≡ kind.external self.old elapsed pins value };

    // from each start state on, advance is a span or never
    ghost rules: { Rules C.Clock.time kind sound };
}
