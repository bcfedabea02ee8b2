// What a test expects of a call that refuses.
use format::fault::Refusal;
use std::process::Abort;
use std::test::Fail;

// The fault is the refusal with this number at this place. The three are handed on one by one here and in the tests: they
// are a row of the table of refusals, with its reason.
pub(crate) fn told<F: Refusal + Copy>(
    rt: &impl Abort,
    fault: Option<F>,
    number: u8,
    place: usize,
    why: &str,
) -> Result<(), Fail> {
    let Some(fault) = fault else {
        return Err(Fail::new("what should be refused was accepted"));
    };
    assert_eq!(rt; fault.number(), number, "{why}");
    assert_eq!(rt; fault.place(), place, "{why}");
    Ok(())
}
