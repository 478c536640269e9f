// Lists without repeats.
use crate::setting::worked_road;
use grid::{Refusal, Vertex};
use std::test::Fail;
use tracing::Listed;

#[test]
fn find_answers_the_lowest_used_place(rt: HostRuntime) {
    let road = worked_road();
    let mut places = [road[0], road[1], road[1], road[0], road[2]];
    let listed = Listed::over(&mut places, 4);
    assert_eq!(rt; listed.count(), 4);
    assert_eq!(rt; listed.find(&road[0]), Some(0));
    assert_eq!(rt; listed.find(&road[1]), Some(1));
    assert_eq!(rt; listed.find(&road[2]), None, "past the used places");
}

#[test]
fn append_puts_at_the_first_unused_place_until_the_slice_is_full(
    rt: HostRuntime,
) -> Result<(), Fail> {
    let one = Vertex::new(&[1, 2]).ok_or("no vertex")?;
    let other = Vertex::new(&[1, 2, 0]).ok_or("no vertex")?;
    let mut places = [one; 3];
    let mut listed = Listed::over(&mut places, 2);
    assert_eq!(rt; listed.find(&other), None);
    assert_eq!(rt; listed.append(other), Ok(()));
    assert_eq!(rt; listed.find(&other), Some(2));
    assert_eq!(rt; listed.append(one), Err(Refusal::NoPlaceUnused));
    assert_eq!(rt; listed.count(), 3);
    assert_eq!(rt; places, [one, one, other]);
    Ok(())
}

#[test]
fn a_list_uses_no_more_places_than_the_slice_has(rt: HostRuntime) {
    let road = worked_road();
    let mut places = [road[0], road[1]];
    let mut listed = Listed::over(&mut places, 3);
    assert_eq!(rt; listed.count(), 2);
    assert_eq!(rt; listed.append(road[2]), Err(Refusal::NoPlaceUnused));
    assert_eq!(rt; listed.count(), 2);
    assert_eq!(rt; listed.find(&road[2]), None);
}

#[test]
fn append_uses_65535_places_and_no_more(rt: HostRuntime) -> Result<(), Fail> {
    let vertex = Vertex::new(&[1, 2]).ok_or("no vertex")?;
    let mut places = vec![in rt.alloc(); vertex; 65536]?;
    let mut listed = Listed::over(places.as_mut_slice(), 65534);
    assert_eq!(rt; listed.append(vertex), Ok(()));
    assert_eq!(rt; listed.append(vertex), Err(Refusal::NoPlaceUnused));
    assert_eq!(rt; listed.count(), 65535);
    Ok(())
}
