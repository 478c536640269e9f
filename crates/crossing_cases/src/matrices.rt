use crossing::{Class, class_of};
use std::process::Abort;

fn has_class(rt: &impl Abort, k: u8, values: &[i16], class: Class) {
    assert_eq!(rt; class_of(k, values), Some(class));
}

#[test]
fn one_row(rt: HostRuntime) {
    has_class(&rt, 1, &[-1, 1], Class::Crossed);
    has_class(&rt, 1, &[1, 3], Class::Clear);
    has_class(&rt, 1, &[0, 1], Class::Degenerate);
    has_class(&rt, 1, &[0, 0], Class::Degenerate);
    has_class(&rt, 1, &[-32768, 32767], Class::Crossed);
    has_class(&rt, 1, &[-32768, -1], Class::Clear);
}

#[test]
fn two_rows(rt: HostRuntime) {
    has_class(&rt, 2, &[2, 0, 0, 2, -1, -1], Class::Crossed);
    has_class(&rt, 2, &[1, 0, -1, 0, 0, 1], Class::Degenerate);
    has_class(&rt, 2, &[1, 1, 2, 2, 3, 3], Class::Degenerate);
    // both rows change sign
    has_class(&rt, 2, &[3, -1, -1, 3, 2, 2], Class::Clear);
    // weights 1, -1, 0
    has_class(&rt, 2, &[1, 0, 1, 0, 0, 1], Class::Clear);
}

#[test]
fn three_rows_that_depend_on_each_other(rt: HostRuntime) {
    // rank 2
    has_class(
        &rt,
        3,
        &[1, 0, 0, 0, 1, 0, 1, 1, 0, -2, -3, 0],
        Class::Degenerate,
    );
    // rank 1
    has_class(
        &rt,
        3,
        &[1, 2, 3, 2, 4, 6, 3, 6, 9, -1, -2, -3],
        Class::Degenerate,
    );
    // rank 0
    has_class(&rt, 3, &[0; 12], Class::Degenerate);
    // a zero beside one sign
    has_class(
        &rt,
        3,
        &[1, 0, 0, 0, 1, 0, -1, -1, 0, 0, 0, 1],
        Class::Degenerate,
    );
}

#[test]
fn three_rows_at_the_ends(rt: HostRuntime) {
    let low = -32768;
    let high = 32767;
    has_class(
        &rt,
        3,
        &[high, 0, 0, 0, high, 0, 0, 0, high, low, low, low],
        Class::Crossed,
    );
    has_class(
        &rt,
        3,
        &[
            low, high, high, high, low, high, high, high, low, low, low, low,
        ],
        Class::Crossed,
    );
    has_class(
        &rt,
        3,
        &[1, 0, 0, 0, 1, 0, 0, 0, 1, high, high, high],
        Class::Clear,
    );
}

#[test]
fn other_shapes_have_no_class(rt: HostRuntime) {
    assert_eq!(rt; class_of(0, &[]), None);
    assert_eq!(rt; class_of(4, &[0; 20]), None);
    assert_eq!(rt; class_of(1, &[1]), None);
    assert_eq!(rt; class_of(1, &[1, 2, 3]), None);
    assert_eq!(rt; class_of(2, &[1; 5]), None);
    assert_eq!(rt; class_of(3, &[1; 13]), None);
}
