// How verdicts are printed.
ghost use Rattle.std.specs.Prelude.{◌∷◌, ◌++◌, Some, decimal, codes};
ghost use Rattle.grammar.specs.Verdicts.{layer_word};

use crate::fault::{Layer, Verdict};
use std::fmt;

impl fmt::Display for Layer {
    // text, line, block or board
    ghost output = { λ layer. Some (layer_word layer) };

    fn fmt<W: fmt::Write>(&self, f: &mut fmt::Formatter<W>) -> fmt::Result {
        match self {
            Layer::Text => write!(f, "text"),
            Layer::Line => write!(f, "line"),
            Layer::Block => write!(f, "block"),
            Layer::Board => write!(f, "board"),
        }
    }
}

impl fmt::Display for Verdict {
    // the number, the line, the field and the layer, as in '4 line 2 field 3 line'
    ghost output = { λ v. Some (decimal v.number ++ codes " line " ++ decimal v.line ++ codes " field " ++ decimal v.field ++ 32 ∷ layer_word v.layer) };

    fn fmt<W: fmt::Write>(&self, f: &mut fmt::Formatter<W>) -> fmt::Result {
        let Verdict {
            number,
            line,
            field,
            layer,
        } = *self;
        write!(f, "{number} line {line} field {field} {layer}")
    }
}
