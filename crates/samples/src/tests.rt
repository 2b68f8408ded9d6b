use crate::{CarryStep, Flow, FlowMeanStep, MeanStep, Sample, Step};

#[test]
fn mean_rounds_down(rt: HostRuntime) {
    assert_eq!(rt; MeanStep.forecast(Some(10), Some(41)), 25);
    assert_eq!(rt; MeanStep.forecast(Some(-2), Some(-1)), -2);
    assert_eq!(rt; MeanStep.correction(Some(-13), Some(-13)), -6);
    assert_eq!(rt; MeanStep.correction(Some(-3), Some(-2)), -1);
    assert_eq!(rt; MeanStep.forecast(Some(i32::MAX), Some(i32::MAX)), i32::MAX);
    assert_eq!(rt; MeanStep.forecast(Some(i32::MIN), Some(i32::MIN)), i32::MIN);
}

#[test]
fn single_end_counts_for_both(rt: HostRuntime) {
    assert_eq!(rt; MeanStep.forecast(None, Some(-7)), -7);
    assert_eq!(rt; MeanStep.correction(Some(2), None), 1);
    assert_eq!(rt; MeanStep.correction(None, None), 0);
    let flow = Flow { dx: -3, dy: 6 };
    assert_eq!(rt;
        FlowMeanStep.correction(Some(flow), None),
        Flow { dx: -1, dy: 3 }
    );
}

#[test]
fn numbers_wrap_around(rt: HostRuntime) {
    assert_eq!(rt; i32::MAX.take(i32::MIN), -1);
    assert_eq!(rt; i32::MAX.join(1), i32::MIN);
}

#[test]
fn identifiers_join_by_exclusive_or(rt: HostRuntime) {
    assert_eq!(rt; 0b1100u32.join(0b1010), 0b0110);
    assert_eq!(rt; 0b0110u32.take(0b1010), 0b1100);
}

#[test]
fn carry_prefers_the_left_end(rt: HostRuntime) {
    let step = CarryStep::<u32>::new();
    assert_eq!(rt; step.forecast(Some(3), Some(9)), 3);
    assert_eq!(rt; step.forecast(None, Some(9)), 9);
    assert_eq!(rt; step.forecast(None, None), 0);
    assert_eq!(rt; step.correction(Some(3), Some(9)), 0);
}
