use laws_session::{
    answers_are_determined, answers_are_free_of_schedule, climbs_learn_upwards, cursors_stay_low,
    dead_ends_are_learned, hands_are_apart, hands_stay, histories_grow, leaves_are_true,
    leaves_are_unsplit_births, leaves_cover, lines_fit_the_table, lines_stay_sound,
    minimal_solutions_come_in_turn, puts_are_few, rules_name_choices, splits_were_open,
};
use search_core::{answers_are_exact, calls_stay_legal, jobs_stay_out, rules_can_be_made};
use std::test::Fail;

#[test]
fn laws_are_called(rt: HostRuntime) -> Result<(), Fail> {
    histories_grow();
    rules_name_choices();
    lines_stay_sound();
    leaves_cover();
    leaves_are_unsplit_births();
    hands_are_apart();
    leaves_are_true();
    puts_are_few();
    answers_are_free_of_schedule();
    answers_are_determined();
    dead_ends_are_learned();
    minimal_solutions_come_in_turn();
    hands_stay();
    cursors_stay_low();
    lines_fit_the_table();
    splits_were_open();
    climbs_learn_upwards();
    assert!(rt; true);
    Ok(())
}

#[test]
fn laws_of_calls_are_called(rt: HostRuntime) -> Result<(), Fail> {
    calls_stay_legal();
    answers_are_exact();
    jobs_stay_out();
    rules_can_be_made();
    assert!(rt; true);
    Ok(())
}
