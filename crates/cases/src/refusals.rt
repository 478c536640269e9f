use grid::{Cause, Fault, Refusal};
use std::test::Fail;

#[test]
fn refusals_have_their_numbers(rt: HostRuntime) {
    assert_eq!(rt; Refusal::NotACell.number(), 1);
    assert_eq!(rt; Refusal::NotAFrame.number(), 2);
    assert_eq!(rt; Refusal::NoSuchNumber.number(), 3);
    assert_eq!(rt; Refusal::LeavesTheWorld.number(), 4);
    assert_eq!(rt; Refusal::EmptyList.number(), 5);
    assert_eq!(rt; Refusal::NotThisList.number(), 6);
    assert_eq!(rt; Refusal::NoPlaceUnused.number(), 7);
    assert_eq!(rt; Refusal::DoesNotFit.number(), 8);
    assert_eq!(rt; Refusal::Degenerate.number(), 10);
    assert_eq!(rt; Refusal::ClearSeed.number(), 11);
    assert_eq!(rt; Refusal::NotFinished.number(), 12);
}

#[test]
fn refusal_9_carries_its_fault(rt: HostRuntime) -> Result<(), Fail> {
    let fault = Fault {
        cause: Cause::Blank,
        place: 17,
        height: 2,
    };
    let refusal = Refusal::Faulty(fault);
    assert_eq!(rt; refusal.number(), 9);
    assert_eq!(rt; refusal.fault(), Some(fault));
    assert_eq!(rt; Refusal::NotACell.fault(), None);
    let text = format!(in rt.alloc(); "{refusal}")?;
    assert_eq!(rt; text.as_str(), "a fault: blank at place 17, height 2");
    Ok(())
}
