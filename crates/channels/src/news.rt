// What a call brings to those who wait.
use channel_core::ChannelCall;
use pauses::News;

/// The news of a call, which are told after it. A poll, a cancel, a count and a peek bring nothing.
///
/// They go by the call and not by the reply: a write that found no room wakes too, but then no reader
/// sleeps whose wait has no answer. A try that made no entry likewise wakes a caller for nothing, which
/// looks again and goes back to sleep.
pub(crate) fn news_of<T>(call: &ChannelCall<T>) -> News {
    match call {
        ChannelCall::Write(_) | ChannelCall::BeginWrite(_) => News::Item,
        ChannelCall::Read | ChannelCall::BeginRead => News::Room,
        ChannelCall::Complete(_) => News::End,
        _ => News::Nothing,
    }
}
