// What a channel keeps its items in.
ghost use Rattle.std.specs.Prelude.{◌≡◌, ℕ, ◌+◌, ◌-◌, ◌^◌, ◌<◌, ◌≤◌, ◌++◌, ◌∷◌, [], List, true, false, Option, None, IfErr, OnOk, OnErr, length, drop, take, remove};
ghost use Rattle.ho_base.specs.Marks.{Mark, number_of};
ghost use Rattle.ho_model.specs.Channel as channel;
ghost use Rattle.channel_core.specs.Store.{HasRoom};

use ho_base::Marked;

/// The buffer of a channel. The item that a read takes is the first, or with a priority the first
/// among those of least priority.
pub trait ItemStore<T: Marked>: Drop {
    /// The items' marks, in the order of writing.
    ghost items: { Self → List Mark };

    /// How many fit, if there is a bound.
    ghost capacity: { Self → Option ℕ };

    /// The priority by which items leave, if they don't leave in the order of writing.
    ghost priority: { Option (Mark → ℕ) };

    /// How many items were put in, where the store numbers them.
    ghost arrivals: { Self → ℕ };

    fn len(&self) -> usize
        ensures { result ≡ length (items self.now) };

    fn is_full(&self) -> bool
        ensures { result ≡ channel.is_full (capacity self.now) (length (items self.now)) };

    /// Puts an item last. A store with a capacity takes no memory for it.
    fn push(&mut self, item: T) -> Result<(), T>
        requires room { channel.is_full (capacity self.old) (length (items self.old)) ≡ false }
        requires arrivals { arrivals self.old < 2 ^ 60 }
        ensures capacity { capacity self.new ≡ capacity self.old }
        ensures ok { OnOk result (items self.new ≡ items self.old ++ T.mark item ∷ []) }
        ensures arrivals { arrivals self.new ≤ arrivals self.old + 1 }
        ensures back { IfErr result (λ back. back ≡ item) }
        ensures err { OnErr result
            ((items self.new ≡ items self.old) × (capacity self.old ≡ None)) }
        ensures unpaid { OnErr result (arrivals self.new ≤ arrivals self.old) };

    /// Takes the item that a read takes.
    fn take(&mut self) -> T
        requires { 0 < length (items self.old) }
        ensures capacity { capacity self.new ≡ capacity self.old }
        ensures arrivals { arrivals self.new ≤ arrivals self.old }
        ensures item { T.mark result ≡ channel.item_at (items self.old)
            (channel.read_place priority (items self.old)) }
        ensures rest { items self.new ≡ remove (items self.old)
            (channel.read_place priority (items self.old)) };

    /// Takes the item that a read takes, and puts another last. Takes no memory.
    fn take_and_put(&mut self, item: T) -> T
        requires some { 0 < length (items self.old) }
        requires arrivals { arrivals self.old < 2 ^ 60 }
        ensures capacity { capacity self.new ≡ capacity self.old }
        ensures arrivals { arrivals self.new ≤ arrivals self.old + 1 }
        ensures item { T.mark result ≡ channel.item_at (items self.old)
            (channel.read_place priority (items self.old)) }
        ensures rest { items self.new ≡ remove (items self.old)
            (channel.read_place priority (items self.old)) ++ T.mark item ∷ [] };

    /// The number of the item that a read would take.
    fn show(&self) -> u64
        requires { 0 < length (items self.now) }
        ensures { result ≡ number_of
            (channel.item_at (items self.now) (channel.read_place priority (items self.now))) };

    /// Drops the item that was written first for one that is written last. Takes no memory.
    fn replace_oldest(&mut self, item: T) -> T
        requires room { HasRoom (capacity self.old) }
        requires full { channel.is_full (capacity self.old) (length (items self.old)) ≡ true }
        ensures capacity { capacity self.new ≡ capacity self.old }
        ensures arrivals { arrivals self.new ≤ arrivals self.old }
        ensures gone { T.mark result ≡ channel.item_at (items self.old) 0 }
        ensures items { items self.new ≡ drop 1 (items self.old) ++ T.mark item ∷ [] };

    /// Drops the item that was written last for another. Takes no memory.
    fn replace_newest(&mut self, item: T) -> T
        requires room { HasRoom (capacity self.old) }
        requires full { channel.is_full (capacity self.old) (length (items self.old)) ≡ true }
        ensures capacity { capacity self.new ≡ capacity self.old }
        ensures arrivals { arrivals self.new ≤ arrivals self.old }
        ensures gone { T.mark result ≡ channel.item_at (items self.old)
            (length (items self.old) - 1) }
        ensures items { items self.new ≡ take (length (items self.old) - 1) (items self.old) ++
            T.mark item ∷ [] };
}
