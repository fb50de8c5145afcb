// The words of the command line, and what options set.
use script::clock_word::ClockWord;
use script::command::Command;
use script::option_word::OptionWord;
use script::options::Settings;

#[test]
fn names(rt: HostRuntime) {
    assert_eq!(rt; Command::named(b"check"), Some(Command::Check));
    assert_eq!(rt; Command::named(b"run"), Some(Command::Run));
    assert_eq!(rt; Command::named(b"play"), Some(Command::Play));
    assert_eq!(rt; Command::named(b"--help"), Some(Command::Help));
    assert_eq!(rt; Command::named(b"help"), None);
    assert_eq!(rt; OptionWord::named(b"--until"), Some(OptionWord::Until));
    assert_eq!(rt; OptionWord::named(b"--budget"), Some(OptionWord::Budget));
    assert_eq!(rt; OptionWord::named(b"--clock"), Some(OptionWord::Clock));
    assert_eq!(rt; OptionWord::named(b"--summary"), Some(OptionWord::Summary));
    assert_eq!(rt; OptionWord::named(b"until"), None);
}

// The budget and the clock after an option.
fn after(option: OptionWord, value: &[u8]) -> Option<(u64, bool)> {
    let told = Settings::untold().with(option, value)?;
    Some((told.budget, told.clock == ClockWord::Plain))
}

#[test]
fn options(rt: HostRuntime) {
    assert_eq!(rt; after(OptionWord::Until, b"5:0"), Some((1_000_000, false)));
    assert_eq!(rt;
        after(OptionWord::Budget, b"9999999999"),
        Some((9_999_999_999, false))
    );
    assert_eq!(rt; after(OptionWord::Budget, b"10000000000"), None);
    assert_eq!(rt; after(OptionWord::Clock, b"plain"), Some((1_000_000, true)));
    assert_eq!(rt; after(OptionWord::Clock, b"sundial"), None);
    assert_eq!(rt; after(OptionWord::Summary, b""), None);
    assert!(rt; Settings::untold().summarized().summary);
}
