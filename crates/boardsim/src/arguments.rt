// The words of the command line.
ghost use Rattle.std.specs.Prelude.{◌≤◌, length, IfOk};

use crate::trouble::Trouble;
use script::option_word::OptionWord;
use script::options::Settings;
use std::env;

// The words after the program's name.
pub fn words(rt: &HostRuntime) -> Result<Vec<String>, Trouble> {
    Ok(env::args(rt)?.skip(1).collect(rt.alloc())?)
}

// The settings so far, and the words that are left.
#[derive(Clone, Copy)]
struct Reading<'a> {
    told: Settings<'a>,
    rest: &'a [String],
}

impl<'a> Reading<'a> {
    // Sets the option that a word names, to the next word that is left; a summary takes none.
    fn with_option(self, word: &[u8]) -> Result<Reading<'a>, Trouble>
        ensures leaves_no_more { IfOk result (λ r. length r.rest.now ≤ length self.entry.rest.now) }
    {
        let Reading { told, rest } = self;
        let option = OptionWord::named(word).ok_or(Trouble::Usage)?;
        if option == OptionWord::Summary {
            return Ok(Reading {
                told: told.summarized(),
                rest,
            });
        }
        let (value, rest) = rest.split_first().ok_or(Trouble::Usage)?;
        let told = told.with(option, value.as_bytes()).ok_or(Trouble::Usage)?;
        Ok(Reading { told, rest })
    }
}

// The settings that a run's options tell.
pub fn settings(words: &[String]) -> Result<Settings<'_>, Trouble> {
    let mut reading = Reading {
        told: Settings::untold(),
        rest: words,
    };
    'options: while let [word, rest @ ..] = reading.rest {
        let told = reading.told;
        let read = Reading { told, rest };
        reading = read.with_option(word.as_bytes())?;
    }
    Ok(reading.told)
}
