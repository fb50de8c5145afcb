// Every kind of part, on the plain clock.
use clock::clock::Clock;
use clock::ticks::Ticks;
use netlist::reader::read_board;
use part::catalogue::Catalogue;
use part::uart::Phase;
use std::test::Fail;

#[test]
fn each_kind_is_read_on_the_plain_clock(rt: HostRuntime) -> Result<(), Fail> {
    let file = b"N 1 3 0\nB t 0 0\nP g gen 65535 255 0\nP u uart 3\nP l line 0\nE\n";
    let board = read_board::<Ticks>(file, rt.alloc())?.board;
    let [g, u, l] = board.starts() else {
        return Err(Fail::new("not three parts"));
    };
    let (Catalogue::Gen(g), Catalogue::Uart(u), Catalogue::Line(l)) = (*g, *u, *l) else {
        return Err(Fail::new("not one part of each kind"));
    };
    assert_eq!(rt; g.period, 65535);
    assert_eq!(rt; g.value, 255);
    assert_eq!(rt; g.step, 0);
    assert_eq!(rt; g.left, Ticks::wait(65535));
    assert_eq!(rt; u.baud, 3);
    assert!(rt; matches!(u.phase, Phase::Idle));
    assert_eq!(rt; u.held, None);
    assert_eq!(rt; l.delay, 0);
    assert_eq!(rt; l.left, None);
    Ok(())
}

#[test]
fn a_uart_has_two_output_pins(rt: HostRuntime) -> Result<(), Fail> {
    let file = b"N 1 3 0\nB t 0 0\nP g gen 1 0 0\nP u uart 1\nP l line 0\nE\n";
    let board = read_board::<Ticks>(file, rt.alloc())?.board;
    let [g, u, l] = board.plan.components.as_slice() else {
        return Err(Fail::new("not three parts"));
    };
    assert_eq!(rt; (g.ins, g.outs), (1, 1));
    assert_eq!(rt; (u.ins, u.outs), (1, 2));
    assert_eq!(rt; (l.ins, l.outs), (1, 1));
    Ok(())
}
