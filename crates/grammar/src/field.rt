// The fields of a line, read one by one.
ghost use Rattle.std.specs.Prelude.{◌≡◌, ℕ, ◌+◌, ◌<◌, ◌^◌, ◌∷◌, length};
ghost use Rattle.grammar.specs.Pieces.{split, left};

use crate::ends::wire_end;
use crate::fault::LineFault;
use crate::numbers::number;
use crate::words::Words;
use drawing::ends::WireEnd;
use names::name::Name;

// A part of the file, with its place: a line, and the number of a field in that.
#[derive(Clone, Copy)]
pub(crate) struct Placed<'a> {
    pub(crate) text: &'a [u8],
    line: usize,
    field: usize,
}

impl Placed<'_> {
    ghost use Rattle.grammar.specs.Reading.{fault_at};

    fn fault(self) -> LineFault
        ensures value { result ≡ fault_at self.entry }
    {
        LineFault::BadField {
            line: self.line,
            field: self.field,
        }
    }
}

// A field as the rule of its line takes it.
#[derive(Clone, Copy)]
pub(crate) enum Field<'a> {
    Name(Placed<'a>),
    Number(Placed<'a>),
    End(Placed<'a>),
}

impl Field<'_> {
    ghost use Rattle.grammar.specs.Reading.{NameIn, NumberIn, EndIn};

    // The name that it is.
    pub(crate) fn name(self) -> Result<Name, LineFault>
        ensures reads_or_refuses { NameIn self.entry result }
    {
        match self {
            Field::Name(part) => Name::new(part.text).ok_or(part.fault()),
            Field::Number(part) | Field::End(part) => Err(part.fault()),
        }
    }

    // The number from low to high that it writes.
    fn number(self, low: u16, high: u16) -> Result<u16, LineFault>
        ensures reads_or_refuses { NumberIn self.entry low high result }
    {
        match self {
            Field::Number(part) => number(part.text, low, high).ok_or(part.fault()),
            Field::Name(part) | Field::End(part) => Err(part.fault()),
        }
    }

    // The wire end that it writes.
    fn end(self) -> Result<WireEnd, LineFault>
        ensures reads_or_refuses { EndIn self.entry result }
    {
        match self {
            Field::End(part) => wire_end(part.text).ok_or(part.fault()),
            Field::Name(part) | Field::Number(part) => Err(part.fault()),
        }
    }
}

// The fields of a line that are not read yet, with the line's number and the count of those that are.
#[derive(Clone, Copy)]
pub(crate) struct Fields<'a> {
    words: Words<'a>,
    line: usize,
    read: usize,
    ghost few: { read + length (left 32 words.rest) < 2 ^ 64 },
}

impl<'a> Fields<'a> {
    ghost use Rattle.grammar.specs.Taking.{Takes, ReadsName, ReadsNumber, ReadsEnd};

    pub(crate) fn of(text: &'a [u8], line: usize) -> Fields<'a>
        requires few { length (split 32 text.now) < 2 ^ 64 }
        ensures are_all { (left 32 result.words.rest ≡ split 32 text.now) × (result.line ≡ line) × (result.read ≡ 0) }
    {
        Fields {
            words: Words::of(text),
            line,
            read: 0,
        }
    }

    // The next field.
    // kept: each reader asks that a field is left; that changes with each field taken, so no invariant can say it
    pub(crate) fn next(&mut self) -> Placed<'a>
        requires some { 0 < length (left 32 self.old.words.rest) }
        ensures takes_one { Takes self.old result.text.now self.new × (result.line ≡ self.new.line) × (result.field ≡ self.new.read) }
    {
        let text = self.words.next().unwrap();
        self.read += 1;
        Placed {
            text,
            line: self.line,
            field: self.read,
        }
    }

    pub(crate) fn name(&mut self) -> Result<Name, LineFault>
        requires some { 0 < length (left 32 self.old.words.rest) }
        ensures reads_or_refuses { ReadsName self.old self.new result }
    {
        Field::Name(self.next()).name()
    }

    pub(crate) fn number(&mut self, low: u16, high: u16) -> Result<u16, LineFault>
        requires some { 0 < length (left 32 self.old.words.rest) }
        ensures reads_or_refuses { ReadsNumber low high self.old self.new result }
    {
        Field::Number(self.next()).number(low, high)
    }

    // The number up to high.
    pub(crate) fn byte(&mut self, high: u8) -> Result<u8, LineFault>
        requires some { 0 < length (left 32 self.old.words.rest) }
        ensures reads_or_refuses { ReadsNumber 0 high self.old self.new result }
    {
        // kept: `as`, which is proved to lose nothing; `try_from` would want an error that never comes
        Ok(self.number(0, u16::from(high))? as u8)
    }

    pub(crate) fn end(&mut self) -> Result<WireEnd, LineFault>
        requires some { 0 < length (left 32 self.old.words.rest) }
        ensures reads_or_refuses { ReadsEnd self.old self.new result }
    {
        Field::End(self.next()).end()
    }
}
