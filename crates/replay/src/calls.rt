// The calls of a list, and what each answers.
ghost use Rattle.std.specs.Prelude.{◌≡◌, Ok, Err, MatchResult};
ghost use Rattle.replay.specs.Replays.{answered, tells};
ghost use Rattle.replay.specs.declared.calls.Answer.TheVariants as answer;

use session::answers::{Firing, Ran, Refusal};

// A call with its arguments.
#[derive(Clone, Copy)]
pub enum Call<C> {
    Put {
        moment: C,
        pins: u8,
        value: u8,
    },
    Step,
    Next,
    // the trace that it is lent has `room` records, or all that are left where those are fewer
    Run {
        horizon: C,
        budget: u16,
        room: usize,
    },
}

// A call, and how many of the places it is lent; more than there are means all.
#[derive(Clone, Copy)]
pub struct Lent<C> {
    pub call: Call<C>,
    pub places: usize,
}

// What a call answers.
// kept: no Result, since all five stand in the records that the caller lends, and are public
#[derive(Clone, Copy)]
pub enum Answer<C> {
    Done,
    // of next: a moment, or never
    Earliest(Option<C>),
    Fired(Firing<C>),
    Ran(Ran),
    Refused(Refusal),
}

impl<C> Answer<C> {
    // How many events the call wrote to the trace.
    pub fn events(&self) -> usize
        ensures is_the_count_of_a_run { result ≡ tells self.now }
    {
        match self {
            Answer::Ran(ran) => usize::from(ran.events),
            _ => 0,
        }
    }
}

// The answer of an input that may be refused.
pub(crate) fn done<C>(outcome: Result<(), Refusal>) -> Result<Answer<C>, Refusal>
    ensures is_done_or_the_refusal { MatchResult outcome (λ _. result ≡ Ok answer.Done) (λ e. result ≡ Err e) }
{
    outcome.map(|_| Answer::Done)
}

// The answer of a call that may be refused.
pub(crate) fn answer_of<C>(outcome: Result<Answer<C>, Refusal>) -> Answer<C>
    ensures is_the_answer { result ≡ answered (λ answer. answer) outcome }
{
    outcome.unwrap_or_else(|refusal| Answer::Refused(refusal))
}
