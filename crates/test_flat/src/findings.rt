//! The worked designs.
use crate::finding::{check_full, check_row};
use crate::finding_designs::{
    BOXES, CLASH, COUNTER, EMPTY, FEEDTHROUGH, LEAF, LEVELS, PADS, TOWER,
};
use std::test::Fail;

#[test]
fn nothing_is_found_in_a_counter(rt: HostRuntime) -> Result<(), Fail> {
    check_row(&rt, rt.alloc(), &COUNTER)
}

#[test]
fn net_through_a_cell_has_no_driver(rt: HostRuntime) -> Result<(), Fail> {
    check_row(&rt, rt.alloc(), &FEEDTHROUGH)
}

#[test]
fn pads_drive_their_nets(rt: HostRuntime) -> Result<(), Fail> {
    check_row(&rt, rt.alloc(), &PADS)
}

#[test]
fn outputs_clash_and_an_input_is_open(rt: HostRuntime) -> Result<(), Fail> {
    check_row(&rt, rt.alloc(), &CLASH)
}

#[test]
fn drivers_are_counted_on_all_levels(rt: HostRuntime) -> Result<(), Fail> {
    check_row(&rt, rt.alloc(), &LEVELS)
}

#[test]
fn boxes_without_anything_in_them_drive_nothing(rt: HostRuntime) -> Result<(), Fail> {
    check_row(&rt, rt.alloc(), &BOXES)
}

#[test]
fn pins_of_a_leaf_at_the_top_are_not_told(rt: HostRuntime) -> Result<(), Fail> {
    check_row(&rt, rt.alloc(), &LEAF)
}

#[test]
fn drivers_before_and_behind_many_nets_are_counted(rt: HostRuntime) -> Result<(), Fail> {
    check_row(&rt, rt.alloc(), &TOWER)
}

#[test]
fn design_without_a_top_is_not_checked(rt: HostRuntime) -> Result<(), Fail> {
    check_row(&rt, rt.alloc(), &EMPTY)
}

#[test]
fn full_sink_gets_a_front(rt: HostRuntime) -> Result<(), Fail> {
    check_full(&rt, rt.alloc(), &CLASH)
}
