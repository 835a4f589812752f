// Rows at the edges, worked by hand.
#![tactic(auto, using(crate::proofs::Worked::power_2, crate::proofs::Worked::power_4, crate::proofs::Worked::power_32, crate::proofs::Worked::power_64, crate::proofs::Worked::power_512, crate::proofs::Worked::power_1024))]

use super::*;

#[test]
fn a_segment_is_at_most_32_firsts_and_at_most_1_024_long(rt: HostRuntime) {
    assert_eq!(rt; longest(2), 64);
    assert_eq!(rt; longest(4), 128);
    assert_eq!(rt; longest(32), 1_024);
    assert_eq!(rt; longest(64), 1_024);
    assert_eq!(rt; longest(1_024), 1_024);
}

#[test]
fn places_by_room_first_length_and_callers(rt: HostRuntime) {
    // callers * (room / first_len + 1) + 1
    assert_eq!(rt; places(1, 2, 1), 2);
    assert_eq!(rt; places(2, 2, 1), 3);
    assert_eq!(rt; places(4, 2, 1), 4);
    assert_eq!(rt; places(7, 4, 1), 3);
    assert_eq!(rt; places(8, 4, 3), 10);
    assert_eq!(rt; places(4_096, 32, 8), 1_033);
    assert_eq!(rt; places(65_536, 2, 64), 2_097_217);
    assert_eq!(rt; places(65_536, 1_024, 64), 4_161);
}

#[test]
fn a_segment_doubles_up_to_the_longest(rt: HostRuntime) {
    assert_eq!(rt; next_len(2, false, 2), 4);
    assert_eq!(rt; next_len(32, false, 2), 64);
    assert_eq!(rt; next_len(64, false, 2), 64);
    assert_eq!(rt; next_len(512, false, 512), 1_024);
    assert_eq!(rt; next_len(1_024, false, 1_024), 1_024);
}

#[test]
fn after_an_observed_segment_the_first_length_comes_again(rt: HostRuntime) {
    assert_eq!(rt; next_len(2, true, 2), 2);
    assert_eq!(rt; next_len(64, true, 2), 2);
    assert_eq!(rt; next_len(1_024, true, 32), 32);
}

#[test]
fn positions_go_round_the_slots(rt: HostRuntime) {
    assert_eq!(rt; slot_of(0, 1), 0);
    assert_eq!(rt; slot_of(7, 1), 0);
    assert_eq!(rt; slot_of(1, 2), 1);
    assert_eq!(rt; slot_of(2, 2), 0);
    assert_eq!(rt; slot_of(1_023, 1_024), 1_023);
    assert_eq!(rt; slot_of(1_024, 1_024), 0);
    // 2^62 - 1 is 3 mod 4
    assert_eq!(rt; slot_of(4_611_686_018_427_387_903, 4), 3);
}

#[test]
fn a_slot_goes_from_free_to_published_to_free(rt: HostRuntime) {
    assert_eq!(rt; free_number(0), 0);
    assert_eq!(rt; published_number(0), 1);
    assert_eq!(rt; released_number(0, 2), 4);
    assert_eq!(rt; free_number(5), 10);
    assert_eq!(rt; published_number(5), 11);
    assert_eq!(rt; released_number(5, 4), 18);
    // 2^63 - 2, 2^63 - 1 and 2^63 + 2,046
    assert_eq!(rt;
        free_number(4_611_686_018_427_387_903),
        9_223_372_036_854_775_806
    );
    assert_eq!(rt;
        published_number(4_611_686_018_427_387_903),
        9_223_372_036_854_775_807
    );
    assert_eq!(rt;
        released_number(4_611_686_018_427_387_903, 1_024),
        9_223_372_036_854_777_854
    );
}

#[test]
fn a_segment_opens_with_the_first_position_of_each_slot(rt: HostRuntime) {
    // 4 slots from position 0: 0, 1, 2, 3
    assert_eq!(rt; opening_number(0, 4, 0), 0);
    assert_eq!(rt; opening_number(0, 4, 3), 6);
    // 4 slots from position 6: slot 2 has 6, slot 3 has 7, slot 0 has 8, slot 1 has 9
    assert_eq!(rt; opening_number(6, 4, 2), 12);
    assert_eq!(rt; opening_number(6, 4, 3), 14);
    assert_eq!(rt; opening_number(6, 4, 0), 16);
    assert_eq!(rt; opening_number(6, 4, 1), 18);
    // 2^62 - 1 is 1 mod 2, so slot 0 has 2^62
    assert_eq!(rt;
        opening_number(4_611_686_018_427_387_903, 2, 0),
        9_223_372_036_854_775_808
    );
}
