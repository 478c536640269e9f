// Sealing too early, and then at the end.
use crate::setting::{EMPTY, numbers, worked_seed, worked_table};
use grid::Refusal;
use std::process::Abort;
use std::test::Fail;
use tracing::{Trace, Unsealed};

// A trace that is not finished comes back as it was.
fn refused_seal(rt: &impl Abort, trace: Trace) -> Result<Trace, Fail> {
    let before = trace.report();
    let Unsealed { trace, refusal } = trace.seal().err().ok_or("sealed")?;
    assert_eq!(rt; refusal, Refusal::NotFinished);
    assert_eq!(rt; trace.report(), before);
    Ok(trace)
}

#[test]
fn a_refused_seal_hands_the_trace_back_and_a_later_one_is_granted(
    rt: HostRuntime,
) -> Result<(), Fail> {
    let table = worked_table()?;
    let seed = worked_seed()?;
    let mut list = [EMPTY; 5];
    let planted = Trace::plant(&table, &seed, &mut list)?;
    let mut trace = refused_seal(&rt, planted)?;
    assert_eq!(rt; trace.step(&table, &mut list, 29).taken, 29);
    let mut trace = refused_seal(&rt, trace)?;
    assert_eq!(rt; trace.report(), numbers(5, 4, 5, 29));
    assert_eq!(rt; trace.step(&table, &mut list, 9).taken, 1);
    let sealed = trace.seal().map_err(|unsealed| unsealed.refusal)?;
    assert_eq!(rt; sealed.count(), 5);
    assert_eq!(rt; sealed.steps(), 30);
    Ok(())
}
