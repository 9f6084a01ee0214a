use crate::{REPORT_BUFFER, report_file};
use rules::{Fault, Refusal};
use std::test::Fail;

// One place with one version at price 5, the cap 4, and a search that is run with a budget of 100 and closed.
const FILE: [u8; 48] = [
    1, 0, 6, 1, 0, 0, 0, 0, 4, // sheet
    3, 0, 1, 1, // order
    4, 0, 5, 1, 0, 0, 0, 5, // version
    6, 0, 6, 3, 0, 0, 0, 0, 0, // search
    6, 0, 6, 4, 0, 0, 0, 0, 100, // run
    6, 0, 6, 5, 0, 0, 0, 0, 0, // close
];

#[test]
fn a_file_with_a_search(rt: HostRuntime) -> Result<(), Fail> {
    let mut out = [b'.'; REPORT_BUFFER + 1];
    let Ok(length) = report_file(&FILE, &mut out) else {
        return Err(Fail::new("refused"));
    };
    let text = b"JOB 1 0\nCALL 1 OK\nCALL 2 OK\nCALL 3 OK\nNONE STEPS 1 GROUNDS 1\nBY 0 5\n";
    assert_eq!(rt; &out[..length], &text[..]);
    assert_eq!(rt; out[length..], [b'.'; REPORT_BUFFER + 1][length..]);
    Ok(())
}

#[test]
fn the_file_is_tested_before_the_buffer(rt: HostRuntime) {
    let mut out = [b'.'; REPORT_BUFFER - 1];
    let cut = Fault {
        byte: 39,
        ..Fault::from(Refusal::FieldCut)
    };
    assert_eq!(rt; report_file(&FILE[..47], &mut out), Err(cut));
    assert_eq!(rt;
        report_file(&FILE, &mut out),
        Err(Fault::from(Refusal::BufferTooShort))
    );
    assert_eq!(rt; out[..], [b'.'; REPORT_BUFFER - 1][..]);
}
