// A line of a call file.
ghost use Rattle.std.specs.Prelude.{◌≡◌, ◌≢◌, ℕ, List, [], ◌∷◌, MatchOption};
ghost use Rattle.grammar.specs.Pieces.{split, left};
ghost use Rattle.script.specs.Calls.{Args, Says, word_of};
ghost use Rattle.script.specs.declared.call.Call.{Call};
ghost use Rattle.script.specs.declared.call_word.CallWord.TheVariants.{Put, Run, Lend};

use crate::call::Call;
use crate::call_word::CallWord;
use crate::fields::{pin_set, three_fields};
use crate::moment::Moment;
use grammar::cut::first_piece;
use grammar::numbers::number;

// The moment that the first of three fields writes, and the other two fields.
fn moment_and_two<C: Moment>(text: &[u8]) -> Option<(C, &[u8], &[u8])>
    ensures reads_or_refuses { MatchOption result ((m : C) (first second third : List ℕ) → split 32 text.now ≡ first ∷ second ∷ third ∷ [] → C.Display.output m ≢ Some first) (λ t. (first : List ℕ) × (split 32 text.now ≡ first ∷ t.1.now ∷ t.2.now ∷ []) × (C.Display.output t.0 ≡ Some first)) }
{
    let (first, second, third) = three_fields(text)?;
    Some((C::read(first)?, second, third))
}

// The put whose moment, pins and value the text writes.
fn put_of<C: Moment>(text: &[u8]) -> Option<Call<C>>
    ensures reads_or_refuses { MatchOption result ((c : Call C) → word_of c ≡ Put → Args C.Display.output c (split 32 text.now) → ⊥) (λ c. (word_of c ≡ Put) × Args C.Display.output c (split 32 text.now)) }
{
    let (moment, pins, value) = moment_and_two(text)?;
    Some(Call::Put {
        moment,
        pins: pin_set(pins)?,
        value: u8::try_from(number(value, 0, 255)?).ok()?,
    })
}

// The run whose horizon, budget and room the text writes.
fn run_of<C: Moment>(text: &[u8]) -> Option<Call<C>>
    ensures reads_or_refuses { MatchOption result ((c : Call C) → word_of c ≡ Run → Args C.Display.output c (split 32 text.now) → ⊥) (λ c. (word_of c ≡ Run) × Args C.Display.output c (split 32 text.now)) }
{
    let (horizon, budget, room) = moment_and_two(text)?;
    Some(Call::Run {
        horizon,
        budget: number(budget, 0, 65_535)?,
        room: number(room, 0, 65_535)?,
    })
}

#[tactic(auto, using(crate::proofs::Lines::no_lend))]
fn lend_of<C: Moment>(text: &[u8]) -> Option<Call<C>>
    ensures reads_or_refuses { MatchOption result ((c : Call C) → word_of c ≡ Lend → Args C.Display.output c (split 32 text.now) → ⊥) (λ c. (word_of c ≡ Lend) × Args C.Display.output c (split 32 text.now)) }
{
    let places = number(text, 0, 80)?;
    Some(Call::Lend { places })
}

// The call of a word, with what follows it.
#[tactic(auto, using(crate::proofs::Lines::no_step, crate::proofs::Lines::no_next))]
fn call_of<C: Moment>(word: CallWord, rest: Option<&[u8]>) -> Option<Call<C>>
    ensures reads_or_refuses { MatchOption result ((c : Call C) → word_of c ≡ word → Args C.Display.output c (left 32 rest.entry) → ⊥) (λ c. (word_of c ≡ word) × Args C.Display.output c (left 32 rest.entry)) }
{
    match (word, rest) {
        (CallWord::Put, Some(text)) => put_of(text),
        (CallWord::Run, Some(text)) => run_of(text),
        (CallWord::Lend, Some(text)) => lend_of(text),
        (CallWord::Step, None) => Some(Call::Step),
        (CallWord::Next, None) => Some(Call::Next),
        (CallWord::Put | CallWord::Run | CallWord::Lend, None) => None,
        (CallWord::Step | CallWord::Next, Some(_)) => None,
    }
}

// The call that a line says.
pub fn read_call<C: Moment>(line: &[u8]) -> Option<Call<C>>
    ensures reads_or_refuses { MatchOption result ((c : Call C) → Says C.Display.output c (split 32 line.now) → ⊥) (λ c. Says C.Display.output c (split 32 line.now)) }
{
    let cut = first_piece(line, b' ');
    call_of(CallWord::named(cut.piece)?, cut.rest)
}
