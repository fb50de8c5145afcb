// Why a text or a line is refused.
ghost use Rattle.std.specs.Prelude.{◌≡◌};
ghost use Rattle.grammar.specs.declared.fault.LineFault.TheVariants.{Text};
ghost use Rattle.grammar.specs.Verdicts.{of_line, text_verdict, line_verdict};

// The layer that a question belongs to.
#[derive(Clone, Copy, PartialEq, Eq, Debug)]
pub enum Layer {
    Text,
    Line,
    Block,
    Board,
}

// The question that a file fails, and where: line and field count from 1, and are 0 where there is none to name.
#[derive(Clone, Copy, PartialEq, Eq, Debug)]
pub struct Verdict {
    // kept: numbers, and 0 for none: a verdict is told so, and is public; its kinds are the faults below
    pub number: u8,
    pub line: usize,
    pub field: usize,
    pub layer: Layer,
}

#[derive(Clone, Copy, PartialEq, Eq, Debug)]
pub enum TextFault {
    // not 1 to 32,768 bytes, or the last is not byte 10
    BadSize,
    // not 1 to 80 bytes, or not fields with single spaces between them
    BadText { line: usize },
}

// The text's fault, or one of a line's own.
#[derive(Clone, Copy, PartialEq, Eq, Debug)]
pub enum LineFault {
    Text(TextFault),
    // the file ends before the board is closed
    Missing { line: usize },
    // the first field is no letter that is allowed here
    BadLetter { line: usize },
    FieldCount { line: usize },
    BadKind { line: usize },
    NumberCount { line: usize },
    // a name, a number or a wire end is not well formed, or out of range
    BadField { line: usize, field: usize },
}

// kept: by hand, since a derived `From` promises nothing, and clauses name this fault
impl From<TextFault> for LineFault {
    ghost from_gives = { λ e r. r ≡ Text e };

    fn from(text: TextFault) -> LineFault {
        LineFault::Text(text)
    }
}

impl TextFault {
    pub fn verdict(self) -> Verdict
        ensures is_the_verdict { result ≡ text_verdict self }
    {
        let layer = Layer::Text;
        match self {
            TextFault::BadSize => Verdict {
                number: 1,
                line: 0,
                field: 0,
                layer,
            },
            TextFault::BadText { line } => Verdict {
                number: 2,
                line,
                field: 0,
                layer,
            },
        }
    }
}

// The verdict of a line's own question.
fn refused(number: u8, line: usize, field: usize) -> Verdict
    ensures value { result ≡ of_line number line field }
{
    Verdict {
        number,
        line,
        field,
        layer: Layer::Line,
    }
}

impl LineFault {
    pub fn verdict(self) -> Verdict
        ensures is_the_verdict { result ≡ line_verdict self }
    {
        match self {
            LineFault::Text(fault) => fault.verdict(),
            LineFault::Missing { line } => refused(3, line, 0),
            LineFault::BadLetter { line } => refused(3, line, 1),
            LineFault::FieldCount { line } => refused(3, line, 0),
            LineFault::BadKind { line } => refused(4, line, 3),
            LineFault::NumberCount { line } => refused(4, line, 0),
            LineFault::BadField { line, field } => refused(4, line, field),
        }
    }
}
