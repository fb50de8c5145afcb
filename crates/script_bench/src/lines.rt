// Lines that say calls, and lines that say none.
use clock::clock::Clock;
use clock::ticks::Ticks;
use script::call::Call;
use script::fields::pin_set;
use script::line::read_call;

fn said(line: &[u8]) -> Option<Call<Ticks>> {
    read_call(line)
}

#[test]
fn calls(rt: HostRuntime) {
    let five = Ticks::wait(5);
    let put = Call::Put {
        moment: five,
        pins: 10,
        value: 255,
    };
    let run = Call::Run {
        horizon: five,
        budget: 65_535,
        room: 0,
    };
    assert_eq!(rt; said(b"put 5 0a 255"), Some(put));
    assert_eq!(rt; said(b"run 5 65535 0"), Some(run));
    assert_eq!(rt; said(b"step"), Some(Call::Step));
    assert_eq!(rt; said(b"next"), Some(Call::Next));
    assert_eq!(rt; said(b"lend 80"), Some(Call::Lend { places: 80 }));
}

#[test]
fn no_calls(rt: HostRuntime) {
    assert_eq!(rt; said(b""), None);
    assert_eq!(rt; said(b"steps"), None);
    assert_eq!(rt; said(b"step "), None);
    assert_eq!(rt; said(b"step 1"), None);
    assert_eq!(rt; said(b"put 5 0a"), None);
    assert_eq!(rt; said(b"put 5 0a 256"), None);
    assert_eq!(rt; said(b"put 5 0a 1 1"), None);
    assert_eq!(rt; said(b"put 5 0A 1"), None);
    assert_eq!(rt; said(b"put 5:0 0a 1"), None);
    assert_eq!(rt; said(b"run 5 65536 1"), None);
    assert_eq!(rt; said(b"lend 81"), None);
}

#[test]
fn pin_sets(rt: HostRuntime) {
    assert_eq!(rt; pin_set(b"00"), Some(0));
    assert_eq!(rt; pin_set(b"9f"), Some(159));
    assert_eq!(rt; pin_set(b"ff"), Some(255));
    assert_eq!(rt; pin_set(b"g0"), None);
    assert_eq!(rt; pin_set(b"0"), None);
    assert_eq!(rt; pin_set(b"000"), None);
}
