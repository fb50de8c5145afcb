// The constructors of the parts.
use crate::helpers::Beyond;
use crate::moments::at;
use clock::dense::Dense;
use part::generator::Gen;
use part::uart::Uart;
use std::test::Fail;

#[test]
fn a_part_needs_time(rt: HostRuntime) {
    assert!(rt; Gen::<Dense>::new(0, 7, 1).is_none());
    assert!(rt; Uart::<Dense>::new(0).is_none());
    assert!(rt; Gen::<Dense>::new(1, 7, 1).is_some());
    assert!(rt; Gen::<Dense>::new(65535, 7, 1).is_some());
    assert!(rt; Uart::<Dense>::new(1).is_some());
    assert!(rt; Uart::<Dense>::new(65535).is_some());
}

#[test]
fn a_generator_starts_with_a_whole_period(rt: HostRuntime) -> Result<(), Fail> {
    let part = Gen::<Dense>::new(65535, 7, 1).ok_or(Beyond)?;
    let expected = Gen {
        period: 65535,
        value: 7,
        step: 1,
        left: at(65535, 0),
    };
    assert_eq!(rt; part, expected);
    Ok(())
}
