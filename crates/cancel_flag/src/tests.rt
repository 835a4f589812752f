use super::*;
use std::test::Fail;
use std::thread::join;

/// How often a token looks for a cancel of another thread before the test gives up.
const MOST_LOOKS: u32 = 10_000_000;

fn is_send<T: Send>(_: &T) {}

#[test]
fn a_new_token_is_not_cancelled(rt: HostRuntime) -> Result<(), Fail> {
    let (mut source, mut token) = cancel_pair(rt.alloc())?;
    assert!(rt; !token.is_cancelled(&rt));
    source.cancel(&rt);
    assert!(rt; token.is_cancelled(&rt));
    source.cancel(&rt);
    assert!(rt; token.is_cancelled(&rt));
    Ok(())
}

#[test]
fn a_source_tells_its_token_whether_it_has_cancelled(rt: HostRuntime) -> Result<(), Fail> {
    let (mut source, mut token) = cancel_pair(rt.alloc())?;
    source.tell(&rt, &mut token);
    assert!(rt; !source.is_cancelled(&rt) && !token.is_cancelled(&rt));
    source.cancel(&rt);
    source.tell(&rt, &mut token);
    assert!(rt; source.is_cancelled(&rt) && token.is_cancelled(&rt));
    let mut other = token.another(&rt)?;
    source.tell(&rt, &mut other);
    assert!(rt; other.is_cancelled(&rt));
    Ok(())
}

#[test]
fn all_tokens_of_a_word_see_its_cancel(rt: HostRuntime) -> Result<(), Fail> {
    let (mut source, mut first) = cancel_pair(rt.alloc())?;
    let (_other_source, mut apart) = cancel_pair(rt.alloc())?;
    let mut second = first.another(&rt)?;
    assert!(rt; !second.is_cancelled(&rt));
    source.cancel(&rt);
    let mut third = second.another(&rt)?;
    assert!(rt; first.is_cancelled(&rt) && second.is_cancelled(&rt) && third.is_cancelled(&rt));
    assert!(rt; !apart.is_cancelled(&rt));
    Ok(())
}

#[test]
fn a_token_sees_the_cancel_of_another_thread(rt: HostRuntime) -> Result<(), Fail> {
    let (mut source, mut token) = cancel_pair(rt.alloc())?;
    let mut other = token.another(&rt)?;
    is_send(&source);
    is_send(&other);
    let (_, seen) = join(
        &rt,
        move || source.cancel(&rt),
        move || {
            for _ in 0..MOST_LOOKS {
                if other.is_cancelled(&rt) {
                    return true;
                }
            }
            false
        },
    );
    assert!(rt; seen && token.is_cancelled(&rt));
    Ok(())
}
