// What a call brings to those who wait.
use blocking_core::BlockingCall;
use pauses::News;

/// The news of a call, which are told after it. A count, a question and a snapshot bring nothing.
///
/// They go by the call and not by the reply: an add that found no room wakes too, but then there is an
/// item for whom it wakes.
pub(crate) fn news_of<T>(call: &BlockingCall<T>) -> News {
    match call {
        BlockingCall::Add(_) => News::Item,
        BlockingCall::Take => News::Room,
        BlockingCall::CompleteAdding => News::End,
        _ => News::Nothing,
    }
}
