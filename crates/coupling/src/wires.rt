// Wiring a network by hand, and reading it.
ghost use Rattle.std.specs.Prelude.{◌≡◌, ◌+◌, ◌<◌, ◌≤◌, replicate, slice_range, vec_len, IfOk, MatchResult};
ghost use Rattle.coupling.specs.declared.wires.BuildFault.TheVariants.{Memory};
ghost use Rattle.coupling.specs.Rows.{nothing};
ghost use Rattle.coupling.specs.Networks.{wired, Bare, Unbuildable, Wired, Unwirable, HasSource, HasTarget, Apart, added, target_fits};

use crate::coupling::{Coupling, Source};
use crate::network::Network;
use crate::rows::{PARTS, Row, union};
use std::alloc::{AllocError, Global};

// Where a wire of the flattened network leads: an input pin of a part, or an output pin of the board.
#[derive(Clone, Copy)]
pub enum Target {
    Part { part: usize, pin: u8 },
    Board { pin: u8 },
}

// Why no network is made.
#[derive(Clone, Copy, PartialEq, Eq, Debug)]
pub enum BuildFault {
    TooManyParts,
    TooManyInputs,
    Memory,
}

// kept: a derived `From` has no `from_gives`, by which `Network::new` knows that running out of memory is `Memory`
impl From<AllocError> for BuildFault {
    ghost from_gives = { λ _ r. r ≡ Memory };

    fn from(_e: AllocError) -> BuildFault {
        BuildFault::Memory
    }
}

// Why a wire is not added.
#[derive(Clone, Copy, PartialEq, Eq, Debug)]
pub enum WireFault {
    NoSource,
    NoTarget,
    OwnPart,
}

// Rows that reach nothing.
pub fn blank(heap: Global, count: usize) -> Result<Vec<Row>, AllocError>
    ensures reach_nothing { IfOk result (λ v. v.items ≡ replicate count nothing) }
{
    vec![in heap; Row::empty(); count]
}

// Where the rows of a source's pins begin.
fn first_row(source: Source) -> usize
    requires in_range { Rattle.coupling.specs.Networks.first_row source ≤ 512 }
    ensures value { result ≡ Rattle.coupling.specs.Networks.first_row source }
{
    match source {
        Source::Board => 0,
        Source::Part(part) => 8 * (part + 1),
    }
}

// Whether a wire leads from one thing to another.
fn apart(source: Source, target: Target) -> bool
    ensures value { result ≡ Apart source target }
{
    match (source, target) {
        (Source::Part(from), Target::Part { part, .. }) => from != part,
        (Source::Part(_), Target::Board { .. }) | (Source::Board, _) => true,
    }
}

// The row with one target more.
fn with_target(mut row: Row, target: Target) -> Row
    requires in_range { target_fits target }
    ensures value { result ≡ added row target }
{
    match target {
        Target::Part { part, pin } => row.sets[part] |= 1 << pin,
        Target::Board { pin } => row.board |= 1 << pin,
    }
    row
}

impl Network {
    // A network with no wires.
    #[tactic(auto, using(crate::proofs::Wiring::blank_set, crate::proofs::Wiring::blank_board))]
    pub fn new(heap: Global, parts: usize, inputs: u8) -> Result<Network, BuildFault>
        ensures has_no_wires_or_refuses { MatchResult result (λ n. Bare parts inputs n) (λ e. Unbuildable parts inputs e) }
    {
        if parts > PARTS {
            return Err(BuildFault::TooManyParts);
        }
        if inputs > 8 {
            return Err(BuildFault::TooManyInputs);
        }
        let rows = blank(heap, 8 * (parts + 1))?;
        Ok(Network {
            parts,
            inputs,
            rows,
        })
    }

    fn has_source(&self, source: Source, pin: u8) -> bool
        ensures value { result ≡ HasSource (wired self.now) source pin }
    {
        match source {
            Source::Board => pin < self.inputs,
            Source::Part(part) => part < self.parts && pin < 8,
        }
    }

    fn has_target(&self, target: Target) -> bool
        ensures value { result ≡ HasTarget (wired self.now) target }
    {
        match target {
            Target::Part { part, pin } => part < self.parts && pin < 8,
            Target::Board { pin } => pin < 8,
        }
    }

    // The rows of a source's pins 0 to 7.
    fn rows_of(&self, source: Source) -> &[Row]
        requires in_range { Rattle.coupling.specs.Networks.first_row source + 8 ≤ vec_len self.now.rows }
        ensures are_its_rows { result.now ≡ slice_range self.now.rows.items (Rattle.coupling.specs.Networks.first_row source) (Rattle.coupling.specs.Networks.first_row source + 8) }
    {
        let first = first_row(source);
        &self.rows[first..first + 8]
    }

    // Adds a wire from a source's pin to a target. It refuses what is absent and a wire from a part to itself.
    pub fn wire(&mut self, source: Source, pin: u8, target: Target) -> Result<(), WireFault>
        ensures adds_the_wire_or_refuses { MatchResult result (λ _. Wired (wired self.old) (wired self.new) source pin target) (λ e. Unwirable (wired self.old) source pin target e × (self.new ≡ self.old)) }
    {
        if !self.has_source(source, pin) {
            return Err(WireFault::NoSource);
        }
        if !self.has_target(target) {
            return Err(WireFault::NoTarget);
        }
        if !apart(source, target) {
            return Err(WireFault::OwnPart);
        }
        let at = first_row(source) + usize::from(pin);
        let row = with_target(self.rows[at], target);
        self.rows[at] = row;
        Ok(())
    }
}

impl Coupling for Network {
    ghost wiring = { wired };

    fn parts(&self) -> usize {
        self.parts
    }

    fn inputs(&self) -> u8 {
        self.inputs
    }

    fn reach(&self, source: Source, pins: u8) -> Row {
        if let Source::Part(part) = source
            && part >= self.parts
        {
            return Row::empty();
        }
        union(self.rows_of(source), pins)
    }
}
