// Checks, runs and plays boards that are written as netlist files.
#![tactic(auto)]

mod arguments;
mod check;
mod files;
mod play;
mod run;
mod show;
mod spare;
mod trouble;

use crate::check::check;
use crate::play::play;
use crate::run::run;
use crate::trouble::Trouble;
use anyhow::bail;
use clock::dense::Dense;
use clock::ticks::Ticks;
use script::clock_word::ClockWord;
use script::command::Command;
use script::option_word::OptionWord;

fn run_words(rt: &HostRuntime, words: &[String]) -> Result<(), Trouble> {
    let [path, options @ ..] = words else {
        return Err(Trouble::Usage);
    };
    let settings = arguments::settings(options)?;
    // kept: a match, since a type is no value to pass on
    match settings.clock {
        ClockWord::Superdense => run::<Dense>(rt, path.as_str(), settings),
        ClockWord::Plain => run::<Ticks>(rt, path.as_str(), settings),
    }
}

// The clock of a play, whose one option it is.
fn clock_word(options: &[String]) -> Result<ClockWord, Trouble> {
    match options {
        [] => Ok(ClockWord::Superdense),
        [option, value] if OptionWord::named(option.as_bytes()) == Some(OptionWord::Clock) => {
            ClockWord::named(value.as_bytes()).ok_or(Trouble::Usage)
        }
        _ => Err(Trouble::Usage),
    }
}

fn play_words(rt: &HostRuntime, words: &[String]) -> Result<(), Trouble> {
    let [path, calls, options @ ..] = words else {
        return Err(Trouble::Usage);
    };
    // kept: a match, since a type is no value to pass on
    match clock_word(options)? {
        ClockWord::Superdense => play::<Dense>(rt, path.as_str(), calls.as_str()),
        ClockWord::Plain => play::<Ticks>(rt, path.as_str(), calls.as_str()),
    }
}

// One command with its words.
fn command(rt: &HostRuntime, words: &[String]) -> Result<(), Trouble> {
    let [first, rest @ ..] = words else {
        return show::usage(rt);
    };
    match Command::named(first.as_bytes()).ok_or(Trouble::Usage)? {
        Command::Help => show::usage(rt),
        Command::Check => match rest {
            [path] => check(rt, path.as_str()),
            _ => Err(Trouble::Usage),
        },
        Command::Run => run_words(rt, rest),
        Command::Play => play_words(rt, rest),
    }
}

// The commands, one after another, to the first that is not carried out.
fn work(rt: &HostRuntime) -> Result<(), Trouble> {
    let words = arguments::words(rt)?;
    for words in words.split(|word| word.as_str() == "then") {
        command(rt, words)?;
    }
    Ok(())
}

fn main(rt: HostRuntime) -> anyhow::Result<()> {
    if let Err(trouble) = work(&rt) {
        if !matches!(trouble, Trouble::Told) {
            eprintln!(rt; "boardsim: {trouble}")?;
        }
        bail!("boardsim: the command was not carried out");
    }
    Ok(())
}
