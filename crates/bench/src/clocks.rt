// Both clocks, on examples.
use crate::helpers::Beyond;
use crate::moments::{at, ticks};
use clock::clock::Clock;
use clock::dense::Dense;
use clock::ticks::Ticks;
use std::test::Fail;

#[test]
fn dense_sums(rt: HostRuntime) {
    assert_eq!(rt; at(7, 3).plus(at(0, 2)), at(7, 5));
    assert_eq!(rt; at(7, 3).plus(at(2, 0)), at(9, 0));
}

#[test]
fn dense_gaps(rt: HostRuntime) {
    assert_eq!(rt; at(7, 3).gap_to(at(9, 0)), at(2, 0));
    assert_eq!(rt; at(7, 3).gap_to(at(7, 5)), at(0, 2));
    assert_eq!(rt; at(9, 0).gap_to(at(7, 3)), at(0, 0));
}

#[test]
fn dense_waits(rt: HostRuntime) {
    assert_eq!(rt; Dense::wait(0), at(0, 1));
    assert_eq!(rt; Dense::wait(4), at(4, 0));
}

#[test]
fn dense_largest(rt: HostRuntime) -> Result<(), Fail> {
    let largest = Dense::new(8_589_934_590, 16_842_750).ok_or(Beyond)?;
    assert_eq!(rt; largest.plus(at(0, 1)), largest);
    assert_eq!(rt; Dense::new(8_589_934_591, 0), None);
    assert_eq!(rt; Dense::new(0, 16_842_751), None);
    Ok(())
}

#[test]
fn dense_ceiling(rt: HostRuntime) -> Result<(), Fail> {
    assert!(rt;
        Dense::new(4_294_967_295, 16_777_215)
            .ok_or(Beyond)?
            .within_ceiling()
    );
    assert!(rt; !Dense::new(4_294_967_296, 0).ok_or(Beyond)?.within_ceiling());
    assert!(rt; !Dense::new(0, 16_777_216).ok_or(Beyond)?.within_ceiling());
    Ok(())
}

#[test]
fn plain_sums_and_gaps(rt: HostRuntime) {
    assert_eq!(rt; ticks(3).plus(ticks(4)), ticks(7));
    assert_eq!(rt; ticks(3).gap_to(ticks(7)), ticks(4));
    assert_eq!(rt; ticks(7).gap_to(ticks(3)), ticks(0));
    assert_eq!(rt; Ticks::wait(0), ticks(0));
    assert_eq!(rt; Ticks::wait(4), ticks(4));
}

#[test]
fn plain_limits(rt: HostRuntime) -> Result<(), Fail> {
    let largest = Ticks::new(8_589_934_590).ok_or(Beyond)?;
    assert_eq!(rt; largest.plus(ticks(1)), largest);
    assert_eq!(rt; Ticks::new(8_589_934_591), None);
    assert!(rt; ticks(4_294_967_295).within_ceiling());
    assert!(rt; !Ticks::new(4_294_967_296).ok_or(Beyond)?.within_ceiling());
    Ok(())
}
