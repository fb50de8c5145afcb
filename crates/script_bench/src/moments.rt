// Moments at their limits, and texts that are none.
use clock::clock::Clock;
use clock::dense::Dense;
use clock::ticks::Ticks;
use script::moment::Moment;

fn pair(text: &[u8]) -> Option<(u64, u32)> {
    Dense::read(text).map(|moment| (moment.tick(), moment.micro()))
}

fn count(text: &[u8]) -> Option<u64> {
    Ticks::read(text).map(|moment| moment.count())
}

#[test]
fn superdense(rt: HostRuntime) {
    assert_eq!(rt; pair(b"0:0"), Some((0, 0)));
    assert_eq!(rt; pair(b"12:345"), Some((12, 345)));
    assert_eq!(rt;
        pair(b"8589934590:16842750"),
        Some((8_589_934_590, 16_842_750))
    );
    assert_eq!(rt; pair(b"8589934591:0"), None);
    assert_eq!(rt; pair(b"0:16842751"), None);
    assert_eq!(rt; pair(b"0:4294967296"), None);
    assert_eq!(rt; pair(b"1"), None);
    assert_eq!(rt; pair(b"1:"), None);
    assert_eq!(rt; pair(b":1"), None);
    assert_eq!(rt; pair(b"1:2:3"), None);
    assert_eq!(rt; pair(b"01:0"), None);
}

#[test]
fn plain(rt: HostRuntime) {
    assert_eq!(rt; count(b"0"), Some(0));
    assert_eq!(rt; count(b"8589934590"), Some(8_589_934_590));
    assert_eq!(rt; count(b"8589934591"), None);
    assert_eq!(rt; count(b"00"), None);
    assert_eq!(rt; count(b""), None);
    assert_eq!(rt; count(b"1:0"), None);
}

#[test]
fn ceilings(rt: HostRuntime) {
    assert_eq!(rt; Ticks::ceiling().count(), 4_294_967_295);
    let last = Dense::ceiling();
    assert_eq!(rt; last.tick(), 4_294_967_295);
    assert_eq!(rt; last.micro(), 16_777_215);
    assert!(rt; last.within_ceiling());
}
