//! The sessions of `test_office` and of `test_serving`, taken here, where the store is compiled anyway.

use std::test::*;

#[test]
fn each_office_answers_alike(rt: HostRuntime) -> Result<(), Fail> {
    test_office::each_office_answers_alike(rt.alloc())
}

#[test]
fn a_content_counts_once_and_while_it_is_kept(rt: HostRuntime) -> Result<(), Fail> {
    test_office::a_content_counts_once_and_while_it_is_kept(rt.alloc())
}

#[test]
fn altered_rows_are_met_where_an_answer_rests_on_them(rt: HostRuntime) -> Result<(), Fail> {
    test_office::altered_rows_are_met_where_an_answer_rests_on_them(rt.alloc())
}

#[test]
fn an_older_office_goes_on_once_it_is_upgraded(rt: HostRuntime) -> Result<(), Fail> {
    test_office::an_older_office_goes_on_once_it_is_upgraded(rt.alloc())
}

#[test]
fn each_stop_in_an_upgrade_leaves_an_office_that_goes_on(rt: HostRuntime) -> Result<(), Fail> {
    test_office::each_stop_in_an_upgrade_leaves_an_office_that_goes_on(rt.alloc())
}

#[test]
fn only_an_office_of_this_version_is_taken_up(rt: HostRuntime) -> Result<(), Fail> {
    test_office::only_an_office_of_this_version_is_taken_up(rt.alloc())
}

#[test]
fn a_stop_leaves_the_office_after_its_last_request(rt: HostRuntime) -> Result<(), Fail> {
    test_office::a_stop_leaves_the_office_after_its_last_request(rt.alloc())
}

#[test]
fn a_stop_leaves_the_office_after_the_run(rt: HostRuntime) -> Result<(), Fail> {
    test_office::a_stop_leaves_the_office_after_the_run(rt.alloc())
}

#[test]
fn calls_last_and_what_is_refused_changes_nothing(rt: HostRuntime) -> Result<(), Fail> {
    test_office::calls_last_and_what_is_refused_changes_nothing(rt.alloc())
}

#[test]
fn only_an_office_is_taken_for_one(rt: HostRuntime) -> Result<(), Fail> {
    test_office::only_an_office_is_taken_for_one(rt.alloc())
}

#[test]
fn files_of_each_size_are_found_again(rt: HostRuntime) -> Result<(), Fail> {
    test_office::files_of_each_size_are_found_again(rt.alloc())
}

#[test]
fn each_fault_has_its_code(rt: HostRuntime) -> Result<(), Fail> {
    test_office::each_fault_has_its_code(rt.alloc())
}

#[test]
fn each_stop_leaves_an_office_or_none(rt: HostRuntime) -> Result<(), Fail> {
    test_office::each_stop_leaves_an_office_or_none(rt.alloc())
}

#[test]
fn offices_are_served(rt: HostRuntime) -> Result<(), Fail> {
    test_serving::offices_are_served(&rt)
}

#[test]
fn an_office_is_found_again_where_its_files_stop(rt: HostRuntime) -> Result<(), Fail> {
    test_serving::an_office_is_found_again_where_its_files_stop(&rt)
}

#[test]
fn the_patience_of_an_office(rt: HostRuntime) -> Result<(), Fail> {
    test_serving::the_patience_of_an_office()
}

#[test]
fn what_still_comes_is_dropped(rt: HostRuntime) -> Result<(), Fail> {
    test_serving::what_still_comes_is_dropped()
}
