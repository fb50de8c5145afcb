// The rule of each line.
// kept: the rules ask for their letters one by one, since each asks for another
ghost use Rattle.std.specs.Prelude.{◌≡◌, length, MatchResult, ◌≢◌};
ghost use Rattle.grammar.specs.Pieces.{split, left};
ghost use Rattle.grammar.specs.Rules.{first, numbers_of, KindSays, BlockLine, PartLine, WireLine, EndLine, ItemLine, BoardLine, CountsLine, HeaderLine};
ghost use Rattle.grammar.specs.Statements.{letter_N, letter_B, letter_P, letter_W, letter_E};
ghost use Rattle.grammar.specs.Taking.{Begun};
ghost use Rattle.grammar.specs.Verdicts.{judged, line_verdict};
ghost use Rattle.grammar.specs.declared.fault.LineFault.TheVariants.{FieldCount};

use crate::fault::LineFault;
use crate::field::{Field, Fields};
use crate::kinds::KindWord;
use crate::statement::{Header, PartKind, Statement};
use crate::text::Line;
use crate::word::Word;

impl<'a> Line<'a> {
    // The fields after the letter.
    #[tactic(auto, using(crate::proofs::Rejoining::split_some))]
    fn fields(self) -> Fields<'a>
        ensures are_the_rest { Begun (split 32 self.entry.text.now) self.entry.number result }
    {
        let mut fields = Fields::of(self.text, self.number);
        fields.next();
        fields
    }

    // The fields after the letter, where there are so many with that.
    fn counted(self, count: usize) -> Result<Fields<'a>, LineFault>
        ensures counts_or_refuses { let all = split 32 self.entry.text.now in MatchResult result (λ fields. (length all ≡ count) × Begun all self.entry.number fields) (λ e. (length all ≢ count) × (e ≡ FieldCount self.entry.number)) }
    {
        if self.count != count {
            return Err(LineFault::FieldCount { line: self.number });
        }
        Ok(self.fields())
    }
}

fn block_line(line: Line) -> Result<Statement, LineFault>
    requires letter { first (split 32 line.text.now) ≡ letter_B }
    ensures asks_in_order { BlockLine (split 32 line.entry.text.now) line.entry.number (judged line_verdict result) }
{
    let mut fields = line.counted(4)?;
    let name = fields.name()?;
    let ins = fields.byte(8)?;
    let outs = fields.byte(8)?;
    Ok(Statement::Open { name, ins, outs })
}

fn wire_line(line: Line) -> Result<Statement, LineFault>
    requires letter { first (split 32 line.text.now) ≡ letter_W }
    ensures asks_in_order { WireLine (split 32 line.entry.text.now) line.entry.number (judged line_verdict result) }
{
    let mut fields = line.counted(3)?;
    let from = fields.end()?;
    let to = fields.end()?;
    Ok(Statement::Wire { from, to })
}

fn end_line(line: Line) -> Result<Statement, LineFault>
    requires letter { first (split 32 line.text.now) ≡ letter_E }
    ensures asks_in_order { EndLine (split 32 line.entry.text.now) line.entry.number (judged line_verdict result) }
{
    if line.count != 1 {
        return Err(LineFault::FieldCount { line: line.number });
    }
    Ok(Statement::Close)
}

impl KindWord {
    // How many numbers follow it.
    fn numbers(self) -> usize
        ensures value { result ≡ length (numbers_of self) }
    {
        match self {
            KindWord::Gen => 3,
            KindWord::Uart | KindWord::Line => 1,
        }
    }
}

// The numbers that follow a kind word.
fn kind_numbers(word: KindWord, mut fields: Fields) -> Result<PartKind, LineFault>
    requires as_many { length (left 32 fields.words.rest) ≡ length (numbers_of word) }
    requires at_the_fourth { fields.read ≡ 3 }
    ensures asks_in_order { KindSays word (left 32 fields.entry.words.rest) fields.entry.line (judged line_verdict result) }
{
    match word {
        KindWord::Gen => {
            let period = fields.number(1, 65_535)?;
            let value = fields.byte(255)?;
            let step = fields.byte(255)?;
            Ok(PartKind::Gen {
                period,
                value,
                step,
            })
        }
        KindWord::Uart => {
            let baud = fields.number(1, 65_535)?;
            Ok(PartKind::Uart { baud })
        }
        KindWord::Line => {
            let delay = fields.number(0, 65_535)?;
            Ok(PartKind::Line { delay })
        }
    }
}

fn part_line(line: Line) -> Result<Statement, LineFault>
    requires letter { first (split 32 line.text.now) ≡ letter_P }
    ensures asks_in_order { PartLine (split 32 line.entry.text.now) line.entry.number (judged line_verdict result) }
{
    if line.count < 3 {
        return Err(LineFault::FieldCount { line: line.number });
    }
    let mut fields = line.fields();
    let name = Field::Name(fields.next());
    let word = KindWord::named(fields.next().text).ok_or(LineFault::BadKind { line: line.number })?;
    if line.count != 3 + word.numbers() {
        return Err(LineFault::NumberCount { line: line.number });
    }
    let name = name.name()?;
    let kind = kind_numbers(word, fields)?;
    Ok(Statement::Part { name, kind })
}

// What a line in a block says.
// kept: a line and its number apart, since these three functions are public
pub fn item_line(line: &[u8], number: usize) -> Result<Statement, LineFault>
    ensures asks_in_order { ItemLine line.now number (judged line_verdict result) }
{
    let line = Line::of(line, number)?;
    match line.letter() {
        Some('B') => block_line(line),
        Some('P') => part_line(line),
        Some('W') => wire_line(line),
        Some('E') => end_line(line),
        _ => Err(LineFault::BadLetter { line: number }),
    }
}

// What the line that opens the board says.
// kept: a match for each of these three, so that the letters stand as literals
pub fn board_line(line: &[u8], number: usize) -> Result<Statement, LineFault>
    ensures asks_in_order { BoardLine line.now number (judged line_verdict result) }
{
    let line = Line::of(line, number)?;
    match line.letter() {
        Some('B') => block_line(line),
        _ => Err(LineFault::BadLetter { line: number }),
    }
}

fn counts_line(line: Line) -> Result<Header, LineFault>
    requires letter { first (split 32 line.text.now) ≡ letter_N }
    ensures asks_in_order { CountsLine (split 32 line.entry.text.now) line.entry.number (judged line_verdict result) }
{
    let mut fields = line.counted(4)?;
    let blocks = fields.number(0, 256)?;
    let parts = fields.number(0, 256)?;
    let wires = fields.number(0, 256)?;
    Ok(Header {
        blocks,
        parts,
        wires,
    })
}

// What the first line says.
pub fn header_line(line: &[u8], number: usize) -> Result<Header, LineFault>
    ensures asks_in_order { HeaderLine line.now number (judged line_verdict result) }
{
    let line = Line::of(line, number)?;
    match line.letter() {
        Some('N') => counts_line(line),
        _ => Err(LineFault::BadLetter { line: number }),
    }
}
