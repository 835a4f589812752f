use super::*;
use crate::pipelines::{Joint, Relation, Stage};
use std::process::Abort;

// Each text with the place and the cause of its refusal, or None where it is read.
fn check_refusals(rt: &impl Abort, alloc: Global, texts: &[(&[u8], Option<(u64, u8)>)]) {
    for (number, (text, refused)) in texts.iter().enumerate() {
        let fault = parse_pipeline(alloc, text).err();
        let wanted = refused.map(|(place, cause)| SpecFault::Refused { place, cause });
        assert_eq!(rt; fault, wanted, "text {number}");
    }
}

#[test]
fn a_text_has_its_meaning(rt: HostRuntime) {
    let text = b"# orders above 100, with 20 added\njoint wait 64\nstage keep 2 gt 100\n\
        joint wait 64\nstage add 2 20\nstage cat 0 1\n";
    let Ok(pipeline) = parse_pipeline(rt.alloc(), text) else {
        panic!(rt; "refused");
    };
    assert_eq!(rt; pipeline.stages(), 3);
    let [first, second, third] = pipeline.stage_list() else {
        panic!(rt; "another count of stages");
    };
    assert!(rt;
        matches!(
            first,
            Stage::Keep {
                field: 2,
                relation: Relation::Greater,
                number: 100
            }
        )
    );
    assert!(rt;
        matches!(
            second,
            Stage::Add {
                field: 2,
                number: 20
            }
        )
    );
    assert!(rt; matches!(third, Stage::Cat { left: 0, right: 1 }));
    assert!(rt; pipeline.guard().is_none());
}

#[test]
fn a_joint_feeds_the_stage_after_it(rt: HostRuntime) {
    let text =
        b"joint dropnewest 1\nstage cut 0\nstage cut 0\njoint dropoldest 65536\nstage cut 0\n\
        joint dropwrite 7\n\nstage cut 0\njoint unbounded\n# on\nstage cut 0\n";
    let Ok(pipeline) = parse_pipeline(rt.alloc(), text) else {
        panic!(rt; "refused");
    };
    assert_eq!(rt; pipeline.stages(), 5);
    if pipeline.stages() == 5 {
        assert_eq!(rt; pipeline.joint(1), Joint::DropNewest(1));
        assert_eq!(rt; pipeline.joint(2), Joint::Wait(16));
        assert_eq!(rt; pipeline.joint(3), Joint::DropOldest(65_536));
        assert_eq!(rt; pipeline.joint(4), Joint::DropWrite(7));
        assert_eq!(rt; pipeline.joint(5), Joint::Unbounded);
    }
}

#[test]
fn words_are_kept(rt: HostRuntime) {
    let text =
        b"stage match 1 ann\nguard 99 #9\" 65535\nstage mul 0 -9223372036854775808\nstage sum 3 4\nstage copy 5";
    let Ok(pipeline) = parse_pipeline(rt.alloc(), text) else {
        panic!(rt; "refused");
    };
    let [first, second, third, fourth] = pipeline.stage_list() else {
        panic!(rt; "another count of stages");
    };
    assert!(rt;
        matches!(first, Stage::Match { field: 1, text } if text.bytes() == b"ann".as_slice())
    );
    assert!(rt;
        matches!(
            second,
            Stage::Mul {
                field: 0,
                number: i64::MIN
            }
        )
    );
    assert!(rt; matches!(third, Stage::Sum { left: 3, right: 4 }));
    assert!(rt; matches!(fourth, Stage::Copy { field: 5 }));
    let Some(guard) = pipeline.guard() else {
        panic!(rt; "no guard");
    };
    assert_eq!(rt; guard.field, 99);
    assert_eq!(rt; guard.text.bytes(), b"#9\"".as_slice());
    assert_eq!(rt; pipeline.guard_code().map(|code| code.code()), Some(65_535));
}

#[test]
fn lines_are_told_apart(rt: HostRuntime) {
    check_refusals(
        &rt,
        rt.alloc(),
        &[
            (b"", Some((0, 6))),
            (b"\n\r\n# a\x01\xff\n   \n", Some((4, 6))),
            (b"stage cut 0", None),
            (b"stage cut 0\r\n", None),
            (b"stage cut 0\r", Some((0, 1))),
            (b"stage cut 0\r\r\n", Some((0, 1))),
            (b"stage cut 0\n\r", Some((1, 1))),
            (b"   stage   cut  0   \n", None),
            (b"\n\nstage\n", Some((2, 3))),
            (b" # a\nstage cut 0\n", Some((0, 2))),
            (b"#\njoint wait 64\nstage ke", Some((2, 3))),
        ],
    );
}

#[test]
fn the_first_cause_of_the_first_refused_line_is_told(rt: HostRuntime) {
    check_refusals(
        &rt,
        rt.alloc(),
        &[
            (b"joint wait 0\nstage cut 0\n", Some((0, 4))),
            (
                b"stage cut 0\nstage cut 100\nStage\nstage\t\n",
                Some((1, 4)),
            ),
            (b"stag\x7f 0", Some((0, 1))),
            (b"stage cut \x1f", Some((0, 1))),
            (b"stages cut x", Some((0, 2))),
            (b"stage keep 100 ne 5", Some((0, 3))),
            (b"stage keep 0 ne 99999999999999999999", Some((0, 3))),
            (b"stage keep 100 ge x", Some((0, 3))),
            (b"stage keep x ge 99999999999999999999", Some((0, 3))),
            (b"stage sum 100 x", Some((0, 3))),
            (b"stage cut 100 0", Some((0, 3))),
            (b"joint drop 0", Some((0, 3))),
            (b"guard 100 a x", Some((0, 3))),
            (b"guard x a 0", Some((0, 3))),
        ],
    );
}

#[test]
fn lines_and_words_have_their_form(rt: HostRuntime) {
    check_refusals(
        &rt,
        rt.alloc(),
        &[
            (b"stage match 0 ~", None),
            (b"stage match 0", Some((0, 3))),
            (b"stage match 0 a b", Some((0, 3))),
            (b"stage Cut 0", Some((0, 3))),
            (b"stage keep 0 ge", Some((0, 3))),
            (b"stage add 0 1 1", Some((0, 3))),
            (b"stage copy", Some((0, 3))),
            (b"joint", Some((0, 3))),
            (b"joint wait", Some((0, 3))),
            (b"joint unbounded 1", Some((0, 3))),
            (b"guard 0 a", Some((0, 3))),
            (b"stage cut +1", Some((0, 3))),
            (b"stage cut -1", Some((0, 3))),
            (b"stage add 0 -", Some((0, 3))),
            (b"stage add 0 +5", Some((0, 3))),
            (b"stage add 0 --5", Some((0, 3))),
            (b"stage cut 00000000000000000001", None),
            (b"stage cut 000000000000000000001", Some((0, 3))),
            (b"stage add 0 -00000000000000000005", None),
            (b"stage add 0 -000000000000000000005", Some((0, 3))),
        ],
    );
}

#[test]
fn numbers_have_their_range(rt: HostRuntime) {
    check_refusals(
        &rt,
        rt.alloc(),
        &[
            (b"stage keep 0 ge 99999999999999999999", Some((0, 4))),
            (b"stage cut 99", None),
            (b"stage cut 100", Some((0, 4))),
            (b"stage cat 0 100", Some((0, 4))),
            (b"stage cut 18446744073709551616", Some((0, 4))),
            (b"joint wait 65536\nstage cut 0", None),
            (b"joint wait 65537\nstage cut 0", Some((0, 4))),
            (b"joint dropwrite 0\nstage cut 0", Some((0, 4))),
            (b"guard 0 a 0\nstage cut 0", Some((0, 4))),
            (b"guard 0 a 65535\nstage cut 0", None),
            (b"guard 0 a 65536\nstage cut 0", Some((0, 4))),
            (b"stage mul 0 9223372036854775807", None),
            (b"stage mul 0 9223372036854775808", Some((0, 4))),
            (b"stage mul 0 -9223372036854775808", None),
            (b"stage mul 0 -9223372036854775809", Some((0, 4))),
        ],
    );
}

#[test]
fn no_line_says_one_thing_too_many(rt: HostRuntime) {
    let eight = b"stage cut 0\nstage cut 0\nstage cut 0\nstage cut 0\n\
        stage cut 0\nstage cut 0\nstage cut 0\nstage cut 0\n";
    let nine = b"stage cut 0\nstage cut 0\nstage cut 0\nstage cut 0\nstage cut 0\n\
        stage cut 0\nstage cut 0\nstage cut 0\n\nstage cut 0\n";
    let ninth_out_of_range = b"stage cut 0\nstage cut 0\nstage cut 0\nstage cut 0\nstage cut 0\n\
        stage cut 0\nstage cut 0\nstage cut 0\nstage cut 100\n";
    check_refusals(
        &rt,
        rt.alloc(),
        &[
            (eight, None),
            (nine, Some((9, 5))),
            (ninth_out_of_range, Some((8, 4))),
            (b"guard 0 a 1\nstage cut 0\nguard 1 b 2\n", Some((2, 5))),
            (
                b"joint unbounded\njoint wait 1\nstage cut 0\n",
                Some((1, 5)),
            ),
            (
                b"joint wait 1\n#\nguard 0 a 1\njoint wait 1\nstage cut 0\n",
                Some((3, 5)),
            ),
            (
                b"joint wait 1\nstage cut 0\njoint wait 1\nstage cut 0\n",
                None,
            ),
        ],
    );
}

#[test]
fn the_end_may_be_refused(rt: HostRuntime) {
    check_refusals(
        &rt,
        rt.alloc(),
        &[
            (b"guard 0 a 1\n", Some((1, 6))),
            (b"joint wait 1\n", Some((1, 6))),
            (b"stage cut 0\njoint wait 1\n# end", Some((3, 7))),
        ],
    );
}
