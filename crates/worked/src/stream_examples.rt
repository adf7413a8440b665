// Worked examples of streams: the first twenty slots for given ways, and the parameters that are refused.
use std::test::Fail;
use streams::Stream;
use streams::either::Either;
use streams::parameter::Parameter;
use streams::periodic::Periodic;
use streams::sporadic::Sporadic;

// What twenty slots show by these ways, a character for each slot: way 1 or 0, and `A` for an arrival or `.` for none.
fn shown<S: Stream>(stream: &S, ways: &[u8; 20]) -> [u8; 20] {
    let mut position = stream.first();
    let mut slots = [b'.'; 20];
    for (slot, way) in slots.iter_mut().zip(ways) {
        let (arrival, next) = stream.answer(position, u8::from(*way == b'1'));
        if arrival {
            *slot = b'A';
        }
        position = next;
    }
    slots
}

#[test]
fn periodic_patterns(rt: HostRuntime) -> Result<(), Fail> {
    let s = Periodic::new(5, 2, 3)?;
    assert_eq!(rt;
        shown(&s, b"00010000010000000001"),
        *b"...A.....A.....A...A"
    );
    let s = Periodic::new(4, 3, 0)?;
    assert_eq!(rt;
        shown(&s, b"10000000100001000010"),
        *b"A......AA....A....A."
    );
    Ok(())
}

#[test]
fn sporadic_patterns(rt: HostRuntime) -> Result<(), Fail> {
    let s = Sporadic::new(3, 5, 2)?;
    assert_eq!(rt;
        shown(&s, b"00000100010000000100"),
        *b"..A..A...A....A..A.."
    );
    let s = Sporadic::new(1, 4, 0)?;
    assert_eq!(rt;
        shown(&s, b"01000001001110000000"),
        *b"AA...A.A..AAA...A..."
    );
    Ok(())
}

#[test]
fn either_patterns(rt: HostRuntime) -> Result<(), Fail> {
    let p: Either<Periodic, Sporadic> = Either::Left(Periodic::new(1, 0, 2)?);
    assert_eq!(rt;
        shown(&p, b"00000000000000000000"),
        *b"..AAAAAAAAAAAAAAAAAA"
    );
    let s: Either<Periodic, Sporadic> = Either::Right(Sporadic::new(6, 6, 1)?);
    assert_eq!(rt;
        shown(&s, b"00000000000000000000"),
        *b".A.....A.....A.....A"
    );
    Ok(())
}

#[test]
fn periodic_parameters(rt: HostRuntime) {
    assert_eq!(rt; Periodic::new(4000, 3999, 4000).err(), None);
    assert_eq!(rt; Periodic::new(0, 0, 4001).err(), Some(Parameter::Offset));
    assert_eq!(rt; Periodic::new(0, 0, 4000).err(), Some(Parameter::Period));
    assert_eq!(rt; Periodic::new(4001, 4001, 0).err(), Some(Parameter::Period));
    assert_eq!(rt; Periodic::new(4000, 4000, 0).err(), Some(Parameter::Jitter));
}

#[test]
fn sporadic_parameters(rt: HostRuntime) {
    assert_eq!(rt; Sporadic::new(4000, 4000, 4000).err(), None);
    assert_eq!(rt; Sporadic::new(0, 0, 4001).err(), Some(Parameter::Offset));
    assert_eq!(rt; Sporadic::new(0, 0, 0).err(), Some(Parameter::LeastGap));
    assert_eq!(rt; Sporadic::new(3, 2, 0).err(), Some(Parameter::GreatestGap));
    assert_eq!(rt;
        Sporadic::new(3, 4001, 0).err(),
        Some(Parameter::GreatestGap)
    );
}
