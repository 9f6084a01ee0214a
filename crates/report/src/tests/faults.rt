use crate::{FAULT_BUFFER, write_fault};
use rules::{Fault, Refusal};
use std::test::Fail;

#[test]
fn greatest_numbers(rt: HostRuntime) -> Result<(), Fail> {
    let greatest = Fault {
        layer: 255,
        number: 255,
        byte: 65535,
        place: 255,
        version: 255,
        row: 255,
    };
    let mut out = [b'.'; FAULT_BUFFER];
    let Ok(length) = write_fault(&greatest, &mut out) else {
        return Err(Fail::new("refused"));
    };
    let line = b"REFUSED 255 LAYER 255 AT 65535 PLACE 255 VERSION 255 ROW 255\n";
    assert_eq!(rt; &out[..length], &line[..]);
    assert_eq!(rt; &out[length..], &b"..."[..]);
    Ok(())
}

#[test]
fn zeros_and_a_short_buffer(rt: HostRuntime) -> Result<(), Fail> {
    let fault = Fault {
        layer: 1,
        number: 3,
        byte: 0,
        place: 0,
        version: 0,
        row: 0,
    };
    let mut out = [b'.'; 80];
    assert_eq!(rt;
        write_fault(&fault, &mut out[..FAULT_BUFFER - 1]),
        Err(Fault::from(Refusal::BufferTooShort))
    );
    assert_eq!(rt; &out[..], &[b'.'; 80][..]);
    let Ok(length) = write_fault(&fault, &mut out) else {
        return Err(Fail::new("refused"));
    };
    let line = b"REFUSED 3 LAYER 1 AT 0 PLACE 0 VERSION 0 ROW 0\n";
    assert_eq!(rt; &out[..length], &line[..]);
    assert_eq!(rt; &out[length..], &[b'.'; 33][..]);
    Ok(())
}
