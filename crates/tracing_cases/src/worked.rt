// The worked road, with one budget and one list and with several.
use crate::setting::{EMPTY, answer, numbers, worked_road, worked_seed, worked_table};
use cells::{Cell, CellRecord};
use fields::{Field, Level, Table, Window};
use grid::{Frame, Refusal};
use std::process::Abort;
use std::test::Fail;
use tracing::{Ending, Listed, Trace};

#[test]
fn five_cells_are_listed_in_order_and_later_places_are_kept(rt: HostRuntime) -> Result<(), Fail> {
    let table = worked_table()?;
    let seed = worked_seed()?;
    let road = worked_road();
    let mut list = [road[1]; 7];
    let mut trace = Trace::plant(&table, &seed, &mut list)?;
    assert_eq!(rt; trace.report(), numbers(1, 0, 0, 0));
    assert_eq!(rt;
        trace.step(&table, &mut list, 4_294_967_295),
        answer(30, Ok(Ending::Finished))
    );
    assert_eq!(rt; trace.report(), numbers(5, 5, 0, 30));
    assert_eq!(rt; &list[0..5], &road[..]);
    assert_eq!(rt; list[5], road[1]);
    assert_eq!(rt; list[6], road[1]);
    let sealed = trace.seal().map_err(|unsealed| unsealed.refusal)?;
    assert_eq!(rt; sealed.count(), 5);
    assert_eq!(rt; sealed.steps(), 30);
    Ok(())
}

// The budgets 0 to 7, which are all spent.
fn spend_in_turn<F: Field>(rt: &impl Abort, trace: &mut Trace, field: &F, list: &mut [CellRecord]) {
    for budget in 0..8 {
        assert_eq!(rt;
            trace.step(field, list, budget),
            answer(budget, Ok(Ending::Spent))
        );
    }
}

#[test]
fn budgets_in_turn_list_what_one_budget_lists(rt: HostRuntime) -> Result<(), Fail> {
    let table = worked_table()?;
    let seed = worked_seed()?;
    let mut list = [EMPTY; 5];
    let mut trace = Trace::plant(&table, &seed, &mut list)?;
    spend_in_turn(&rt, &mut trace, &table, &mut list);
    assert_eq!(rt; trace.report().steps, 28);
    assert_eq!(rt;
        trace.step(&table, &mut list, 8),
        answer(2, Ok(Ending::Finished))
    );
    assert_eq!(rt; trace.report(), numbers(5, 5, 0, 30));
    assert_eq!(rt; list, worked_road());
    Ok(())
}

#[test]
fn a_budget_that_is_just_enough_ends_finished(rt: HostRuntime) -> Result<(), Fail> {
    let table = worked_table()?;
    let seed = worked_seed()?;
    let mut list = [EMPTY; 5];
    let mut trace = Trace::plant(&table, &seed, &mut list)?;
    assert_eq!(rt;
        trace.step(&table, &mut list, 29),
        answer(29, Ok(Ending::Spent))
    );
    assert_eq!(rt; trace.report(), numbers(5, 4, 5, 29));
    assert_eq!(rt;
        trace.step(&table, &mut list, 1),
        answer(1, Ok(Ending::Finished))
    );
    assert_eq!(rt;
        trace.step(&table, &mut list, 0),
        answer(0, Ok(Ending::Finished))
    );
    Ok(())
}

#[test]
fn a_full_list_is_refused_and_a_longer_one_goes_on_from_there(rt: HostRuntime) -> Result<(), Fail> {
    let table = worked_table()?;
    let seed = worked_seed()?;
    let mut short = [EMPTY; 1];
    let mut trace = Trace::plant(&table, &seed, &mut short)?;
    assert_eq!(rt;
        trace.step(&table, &mut short, 1000),
        answer(4, Err(Refusal::NoPlaceUnused))
    );
    assert_eq!(rt; trace.report(), numbers(1, 0, 4, 4));
    assert_eq!(rt; short[0], worked_road()[0]);
    let mut list = [EMPTY; 5];
    list[0] = short[0];
    assert_eq!(rt;
        trace.step(&table, &mut list, 1000),
        answer(26, Ok(Ending::Finished))
    );
    assert_eq!(rt; trace.report(), numbers(5, 5, 0, 30));
    assert_eq!(rt; list, worked_road());
    Ok(())
}

fn holds_worked_road(rt: &impl Abort, list: &mut [CellRecord], count: usize) {
    let road = worked_road();
    let listed = Listed::over(list, count);
    assert_eq!(rt; listed.count(), 5);
    for plain in &road {
        assert!(rt; listed.find(plain).is_some());
    }
}

#[test]
fn layers_with_the_same_values_and_another_seed_list_the_same_cells(
    rt: HostRuntime,
) -> Result<(), Fail> {
    let frame = Frame::new(2, 1, &[3, 1])?;
    let own = Frame::new(2, 1, &[2, 1])?;
    let samples = [0, -2, 0, 2, 0, 0, 2, 4];
    let level = Level::new(Table::new(frame, &samples), [1, 0, 0]);
    let window = Window::new(level, own, [1, 0, 0, 0, 0, 0]);
    let seed = Cell::new(worked_road()[4])?;
    let mut list = [EMPTY; 8];
    let mut trace = Trace::plant(&window, &seed, &mut list)?;
    assert_eq!(rt;
        trace.step(&window, &mut list, 1000),
        answer(30, Ok(Ending::Finished))
    );
    assert_eq!(rt; list[0], seed.record());
    holds_worked_road(&rt, &mut list, trace.report().count);
    Ok(())
}
