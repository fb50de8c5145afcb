// What a command is told besides its files.
ghost use Rattle.std.specs.Prelude.{◌≡◌, true, MatchOption};
ghost use Rattle.script.specs.Settings.{untold, Sets, Unsettable};

use crate::clock_word::ClockWord;
use crate::option_word::OptionWord;
use grammar::numbers::natural;

// How many steps a run takes that is not told.
const BUDGET: u64 = 1_000_000;

#[derive(Clone, Copy)]
pub struct Settings<'a> {
    // the horizon's text; none for the ceiling
    pub until: Option<&'a [u8]>,
    pub budget: u64,
    pub clock: ClockWord,
    pub summary: bool,
}

impl<'a> Settings<'a> {
    // Those of a command that is told nothing.
    pub fn untold() -> Settings<'a>
        ensures are_the_defaults { result ≡ untold }
    {
        Settings {
            until: None,
            budget: BUDGET,
            clock: ClockWord::Superdense,
            summary: false,
        }
    }

    // The settings with an option's value in place of the old one; a summary takes none.
    pub fn with(self, option: OptionWord, value: &'a [u8]) -> Option<Settings<'a>>
        ensures sets_one_or_refuses { MatchOption result (Unsettable option value.now) (λ s. Sets option self.entry value.entry s) }
    {
        match option {
            OptionWord::Until => Some(Settings {
                until: Some(value),
                ..self
            }),
            OptionWord::Budget => Some(Settings {
                budget: natural(value)?,
                ..self
            }),
            OptionWord::Clock => Some(Settings {
                clock: ClockWord::named(value)?,
                ..self
            }),
            OptionWord::Summary => None,
        }
    }

    pub fn summarized(self) -> Settings<'a>
        ensures sets_the_summary_alone { result ≡ record { until = self.entry.until; budget = self.entry.budget; clock = self.entry.clock; summary = true } }
    {
        Settings {
            summary: true,
            ..self
        }
    }
}
