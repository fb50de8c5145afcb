// The words of commands.
ghost use Rattle.std.specs.Prelude.{◌≡◌, MatchOption, ◌≢◌};
ghost use Rattle.script.specs.Words.{command_word};

use grammar::word::Word;

// What the program is told to do.
#[derive(Clone, Copy, PartialEq, Eq, Debug)]
pub enum Command {
    Check,
    Run,
    Play,
    Help,
}

impl Command {
    // The command that a word names; it is called without the trait too.
    pub fn named(word: &[u8]) -> Option<Command>
        ensures names_it_or_refuses { MatchOption result ((k : Command) → command_word k ≢ word.now) (λ k. command_word k ≡ word.now) }
    {
        <Command as Word>::named(word)
    }
}

impl Word for Command {
    ghost spelling = { command_word };

    fn named(text: &[u8]) -> Option<Command> {
        match text {
            b"check" => Some(Command::Check),
            b"run" => Some(Command::Run),
            b"play" => Some(Command::Play),
            b"--help" => Some(Command::Help),
            _ => None,
        }
    }
}
