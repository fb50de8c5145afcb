// The kinds of parts that a netlist names.
ghost use Rattle.grammar.specs.Fields.{kind_word};

use crate::word::Word;

#[derive(Clone, Copy, PartialEq, Eq, Debug)]
pub(crate) enum KindWord {
    Gen,
    Uart,
    Line,
}

impl Word for KindWord {
    ghost spelling = { kind_word };

    fn named(text: &[u8]) -> Option<KindWord> {
        match text {
            b"gen" => Some(KindWord::Gen),
            b"uart" => Some(KindWord::Uart),
            b"line" => Some(KindWord::Line),
            _ => None,
        }
    }
}
