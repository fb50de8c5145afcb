// Cutting a text at a byte.
ghost use Rattle.std.specs.Prelude.{◌≡◌, ◌==◌, position};
ghost use Rattle.grammar.specs.Pieces.{Parts};

// A text up to the first separator, and what follows that; nothing follows where there is none.
#[derive(Clone, Copy)]
pub struct Cut<'a> {
    pub piece: &'a [u8],
    pub rest: Option<&'a [u8]>,
}

// Where the first separator stands.
fn separator_at(text: &[u8], separator: u8) -> Option<usize>
    ensures finds_the_first { result ≡ position (λ b. b == separator) text.now }
{
    text.iter().position(|b| *b == separator)
}

pub fn first_piece(text: &[u8], separator: u8) -> Cut<'_>
    ensures takes_the_first_piece { Parts separator text.now result.piece.now result.rest }
{
    match separator_at(text, separator) {
        Some(at) => Cut {
            piece: &text[..at],
            rest: Some(&text[at + 1..]),
        },
        None => Cut {
            piece: text,
            rest: None,
        },
    }
}
