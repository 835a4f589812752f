// Why a channel was completed.
ghost use Rattle.std.specs.Prelude.{◌≡◌, ◌<◌, ◌↔◌, IsNone, IfSome};

use std::marker::Model;

/// The fault with which a channel was completed, a number from 1 to 65,535. It stands for the
/// exception that .NET's `ChannelWriter<T>.TryComplete` takes.
#[derive(Clone, Copy, Debug, PartialEq, Eq)]
pub struct Fault {
    code: u16,
}

impl Model for Fault {
    ghost use Rattle.std.specs.Prelude.{ℕ, ◌<◌};

    ghost Value = { ℕ };

    ghost view = { λ f. f.code };

    ghost invariant = { λ f. 0 < f.code };

    ghost inverse = { λ n. record { code = n } };
}

impl Fault {
    /// The fault of this number. Zero is none.
    pub fn new(code: u16) -> Option<Fault>
        ensures none { IsNone result ↔ (code ≡ 0) }
        ensures fault { IfSome result (λ fault. fault ≡ code) }
    {
        if code == 0 {
            None
        } else {
            Some(Fault { code })
        }
    }

    pub fn code(&self) -> u16
        ensures code { result ≡ self.now }
        ensures nonzero { 0 < result }
    {
        self.code
    }
}
