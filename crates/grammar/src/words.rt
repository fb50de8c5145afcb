// The words of a line, one by one.
ghost use Rattle.std.specs.Prelude.{◌≡◌};
ghost use Rattle.std.specs.Iterator.{YieldsFirstRef, item_count};
ghost use Rattle.grammar.specs.Pieces.{split, left};

use crate::cut::first_piece;

// What stands between the spaces of a line, as far as it is not read yet.
#[derive(Clone, Copy)]
pub(crate) struct Words<'a> {
    pub(crate) rest: Option<&'a [u8]>,
}

impl<'a> Words<'a> {
    pub(crate) fn of(line: &'a [u8]) -> Words<'a>
        ensures are_all { left 32 result.rest ≡ split 32 line.now }
    {
        Words { rest: Some(line) }
    }
}

impl<'a> Iterator for Words<'a> {
    type Item = &'a [u8];

    ghost next_gives = { YieldsFirstRef (λ words. left 32 words.rest) };

    ghost remaining = { item_count (λ words. left 32 words.rest) };

    fn next(&mut self) -> Option<&'a [u8]> {
        let cut = first_piece(self.rest?, b' ');
        self.rest = cut.rest;
        Some(cut.piece)
    }
}
