// Calls made one after another, and what they leave.
// kept: board, session, places and trace apart, since each call is lent other slices of places and trace
ghost use Rattle.std.specs.Prelude.{◌≡◌, ◌<◌, ◌≤◌, length, drop, slice_set};
ghost use Rattle.session.specs.Machine.{model, memory};
ghost use Rattle.session.specs.Calls.{traced, Kept, OnlyOutcome};
ghost use Rattle.replay.specs.Replays.{Made, answered, OneOutcome, Replay, ReplaysFrom, RestKept, RunsIn, loan, own};

use crate::calls::{Answer, Call, Lent, answer_of, done};
use clock::clock::Clock;
use coupling::coupling::Coupling;
use part::part::Part;
use session::answers::{Ran, Refusal};
use session::places::{Event, Place};
use session::session::{Session, next};

// How many calls were made and answered, and how many events they wrote.
#[derive(Clone, Copy, PartialEq, Eq, Debug)]
pub struct Replayed {
    pub calls: usize,
    pub events: usize,
}

// Runs with the first `room` records, or with all where they are fewer.
fn run_within<P: Part<C>, C: Clock, K: Coupling>(
    coupling: &K,
    session: &mut Session<C>,
    places: &mut [Place<P, C>],
    horizon: C,
    budget: u16,
    room: usize,
    trace: &mut [Event<C>],
) -> Result<Ran, Refusal>
    ensures runs_in_the_room { RunsIn (model C.Clock.time P.Part.kind (K.Coupling.wiring coupling.now)) horizon budget room (traced (memory places.old session.old.now) trace.old) (traced (memory places.new session.new.now) trace.new) result }
{
    let records = room.min(trace.len());
    session.run(coupling, places, horizon, budget, &mut trace[..records])
}

// Makes a call on all the places given.
fn make<P: Part<C>, C: Clock, K: Coupling>(
    coupling: &K,
    session: &mut Session<C>,
    places: &mut [Place<P, C>],
    call: Call<C>,
    trace: &mut [Event<C>],
) -> Result<Answer<C>, Refusal>
    ensures makes_the_call { Made (model C.Clock.time P.Part.kind (K.Coupling.wiring coupling.now)) (record { call = call; places = length places.old }) (traced (memory places.old session.old.now) trace.old) (traced (memory places.new session.new.now) trace.new) (answered (λ answer. answer) result) }
{
    match call {
        Call::Put {
            moment,
            pins,
            value,
        } => done(session.put(coupling, places, moment, pins, value)),
        Call::Step => Ok(Answer::Fired(session.step(coupling, places)?)),
        Call::Next => Ok(Answer::Earliest(next(coupling, places)?)),
        Call::Run {
            horizon,
            budget,
            room,
        } => {
            let ran = run_within(coupling, session, places, horizon, budget, room, trace)?;
            Ok(Answer::Ran(ran))
        }
    }
}

// Makes a call on the first places, as many as it is lent.
fn lend<P: Part<C>, C: Clock, K: Coupling>(
    coupling: &K,
    session: &mut Session<C>,
    places: &mut [Place<P, C>],
    lent: Lent<C>,
    trace: &mut [Event<C>],
) -> Answer<C>
    requires has_places { (K.Coupling.wiring coupling.now).parts ≤ length places.old }
    ensures the_machine_makes_it { Made (model C.Clock.time P.Part.kind (K.Coupling.wiring coupling.now)) lent (traced (own (model C.Clock.time P.Part.kind (K.Coupling.wiring coupling.now)) places.old session.old.now) trace.old) (traced (own (model C.Clock.time P.Part.kind (K.Coupling.wiring coupling.now)) places.new session.new.now) trace.new) result }
    ensures leaves_spare_places { drop (K.Coupling.wiring coupling.now).parts places.new ≡ drop (K.Coupling.wiring coupling.now).parts places.old }
{
    let count = lent.places.min(places.len());
    answer_of(make(coupling, session, &mut places[..count], lent.call, trace))
}

// Writes an answer to its record.
fn store<C: Clock>(answers: &mut [Answer<C>], i: usize, answer: Answer<C>)
    requires in_range { i < length answers.old }
    ensures writes_the_record { answers.new ≡ slice_set answers.old i answer }
{
    answers[i] = answer;
}

// Makes the calls on an opened session.
fn make_all<P: Part<C>, C: Clock, K: Coupling>(
    coupling: &K,
    session: &mut Session<C>,
    places: &mut [Place<P, C>],
    calls: &[Lent<C>],
    answers: &mut [Answer<C>],
    trace: &mut [Event<C>],
) -> Replayed
    requires has_places { (K.Coupling.wiring coupling.now).parts ≤ length places.old }
    ensures replays { Replay (model C.Clock.time P.Part.kind (K.Coupling.wiring coupling.now)) (own (model C.Clock.time P.Part.kind (K.Coupling.wiring coupling.now)) places.old session.old.now) calls.now (loan places.old session.old.now answers.old trace.old) (loan places.new session.new.now answers.new trace.new) result }
{
    let count = calls.len().min(answers.len());
    let mut events: usize = 0;
    // kept: numbered, and no `zip`: the proof did not close, since no fact says what `zip` over `iter_mut` wrote
    'each: for (i, lent) in calls[..count].iter().enumerate() {
        let answer = lend(coupling, session, places, *lent, &mut trace[events..]);
        events += answer.events();
        store(answers, i, answer);
    }
    Replayed {
        calls: count,
        events,
    }
}

// Opens the session and makes the calls in order, as long as there is a record for the answer. The events of all runs go to the
// trace one after another.
pub fn replay<P: Part<C>, C: Clock, K: Coupling>(
    coupling: &K,
    session: &mut Session<C>,
    places: &mut [Place<P, C>],
    starts: &[P],
    calls: &[Lent<C>],
    answers: &mut [Answer<C>],
    trace: &mut [Event<C>],
) -> Result<Replayed, Refusal>
    ensures follows_the_machine_from_opening { ReplaysFrom (model C.Clock.time P.Part.kind (K.Coupling.wiring coupling.now)) starts.now calls.now (loan places.old session.old.now answers.old trace.old) (loan places.new session.new.now answers.new trace.new) result }
    ensures refusal_changes_nothing { Kept (loan places.old session.old.now answers.old trace.old) (loan places.new session.new.now answers.new trace.new) result }
    ensures leaves_spare_places_and_other_records { RestKept (model C.Clock.time P.Part.kind (K.Coupling.wiring coupling.now)) (loan places.old session.old.now answers.old trace.old) (loan places.new session.new.now answers.new trace.new) result }
    ensures has_one_outcome { OnlyOutcome (ReplaysFrom (model C.Clock.time P.Part.kind (K.Coupling.wiring coupling.now)) starts.now calls.now (loan places.old session.old.now answers.old trace.old)) (loan places.new session.new.now answers.new trace.new) result }
    ensures machine_has_one_outcome { OneOutcome (model C.Clock.time P.Part.kind (K.Coupling.wiring coupling.now)) }
{
    session.open(coupling, places, starts)?;
    Ok(make_all(coupling, session, places, calls, answers, trace))
}
