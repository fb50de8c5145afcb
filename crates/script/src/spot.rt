// Where a line stands in a file, and a field in a line.
ghost use Rattle.std.specs.Prelude.{◌≤◌, length, MatchOption};
ghost use Rattle.grammar.specs.Pieces.{split};
ghost use Rattle.script.specs.Spots.{Stands};

use grammar::cut::first_piece;

// A piece of a text, and how many bytes stand before it.
#[derive(Clone, Copy)]
pub struct Piece<'a> {
    pub text: &'a [u8],
    pub start: usize,
}

// The piece between separators that has so many before it.
#[tactic(auto, using(crate::proofs::Passing::pass, crate::proofs::Passing::none_left))]
pub fn piece_at(text: &[u8], separator: u8, before: usize) -> Option<Piece<'_>>
    ensures finds_or_refuses { MatchOption result (length (split separator text.now) ≤ before) (λ p. Stands separator text.now before p.text.now p.start) }
{
    let mut cut = first_piece(text, separator);
    let mut start = 0;
    // kept: the bytes passed are part of the answer, which an iterator of pieces does not tell
    'pieces: for _ in 0..before {
        start += cut.piece.len() + 1;
        cut = first_piece(cut.rest?, separator);
    }
    Some(Piece {
        text: cut.piece,
        start,
    })
}
