use super::*;
use exhaustive::Found;
use rules::{MOST_PLACES, Refusal};
use std::test::Fail;

fn shown(
    rt: &HostRuntime,
    places: u8,
    answer: Result<Option<Found>, Refusal>,
) -> Result<String, Fail> {
    let text = AnswerText { places, answer };
    Ok(format!(in rt.alloc(); "{text}")?)
}

#[test]
fn each_answer(rt: HostRuntime) -> Result<(), Fail> {
    let mut versions = [0; MOST_PLACES];
    versions[0] = 1;
    versions[1] = 32;
    let found = Found {
        versions,
        price: -130,
    };
    assert_eq!(rt; shown(&rt, 2, Ok(Some(found)))?.as_str(), "LEAST -130 1 32");
    assert_eq!(rt; shown(&rt, 2, Ok(None))?.as_str(), "NONE");
    assert_eq!(rt;
        shown(&rt, 2, Err(Refusal::CountsDiffer))?.as_str(),
        "REFUSED 12"
    );
    Ok(())
}
