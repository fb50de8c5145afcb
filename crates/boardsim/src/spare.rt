// Memory that a session is lent: places and trace records.
use clock::clock::Clock;
use part::catalogue::Catalogue;
use part::line::Line;
use session::places::{Event, Place};
use std::alloc::{AllocError, Global};

pub fn places<C: Clock>(
    heap: Global,
    count: usize,
) -> Result<Vec<Place<Catalogue<C>, C>>, AllocError> {
    let blank = Place {
        part: Catalogue::Line(Line::new(0)),
        last: C::zero(),
    };
    vec![in heap; blank; count]
}

pub fn trace<C: Clock>(heap: Global, count: u16) -> Result<Vec<Event<C>>, AllocError> {
    let blank = Event {
        moment: C::zero(),
        part: 0,
        pins: 0,
        value: 0,
        board: 0,
    };
    vec![in heap; blank; usize::from(count)]
}
