ghost use Rattle.std.specs.Prelude.{◌≤◌, length};

use values::refusal::Refusal;

/// A queue in the caller's slice, the oldest element first out; freed places are used again.
// No `VecDeque`: the memory is fixed, and the caller's.
#[derive(Drop)]
pub struct Queue<'a, T> {
    slots: &'a mut [T],
    /// The place of the oldest element.
    head: usize,
    len: usize,
    ghost inside: { head ≤ length slots.now },
    ghost fits: { len ≤ length slots.now },
}

impl<'a, T: Copy> Queue<'a, T> {
    ghost use Rattle.std.specs.Prelude.{◌≡◌, ◌+◌, ◌<◌, ◌≤◌, [], ◌∷◌, ◌++◌, length, drop, slice_set};
    ghost use Rattle.values.specs.Refusals.{outcome};
    ghost use Rattle.queues.specs.Fifo.{held, room, put_outcome, put_after, take_outcome, take_after, oldest_of, UnchangedIfRefused, place_of, free_place, slots_after, OnlyTaken, OnlyPut};

    /// An empty queue over the whole slice.
    pub fn new(slots: &'a mut [T]) -> Queue<'a, T>
        ensures empty { held result ≡ [] }
        ensures room { room result ≡ length slots.old }
        ensures same { result.slots.now ≡ slots.old }
        ensures lender { result.slots.ghost_name ≡ slots.entry.ghost_name }
    {
        Queue {
            slots,
            head: 0,
            len: 0,
        }
    }

    /// Puts an element behind the newest.
    pub fn put(&mut self, x: T) -> Result<(), Refusal>
        ensures outcome { outcome (λ u. u) result ≡ put_outcome (room self.old) (held self.old) }
        ensures after { held self.new ≡ put_after (room self.old) (held self.old) x }
        ensures slots { self.new.slots.now ≡ slots_after self.old x }
        ensures refused { UnchangedIfRefused result self.old self.new }
        ensures only_put { OnlyPut self.old self.new }
    {
        if self.len() >= self.capacity() {
            return Err(Refusal::QueueFull);
        }
        self.append(x);
        Ok(())
    }

    /// Takes the oldest element out.
    pub fn take(&mut self) -> Result<T, Refusal>
        ensures outcome { outcome (λ x. x) result ≡ take_outcome (held self.old) }
        ensures after { held self.new ≡ take_after (held self.old) }
        ensures refused { UnchangedIfRefused result self.old self.new }
        ensures only_taken { OnlyTaken self.old self.new }
    {
        let x = self.oldest().ok_or(Refusal::NoAnswer)?;
        self.remove();
        Ok(x)
    }

    /// The element that `take` would give.
    pub fn oldest(&self) -> Option<T>
        ensures { result ≡ oldest_of (held self.now) }
    {
        if self.len() > 0 {
            Some(self.at(0))
        } else {
            None
        }
    }

    /// How many elements it holds.
    pub fn len(&self) -> usize
        ensures is { result ≡ length (held self.now) }
        ensures fits { result ≤ room self.now }
    {
        self.len
    }

    /// How many it can hold.
    pub fn capacity(&self) -> usize
        ensures { result ≡ room self.now }
    {
        self.slots.len()
    }

    /// The place of the element that is `k` behind the oldest: after the slice's last place comes its first.
    fn place(&self, k: usize) -> usize
        requires { k ≤ room self.now }
        ensures is { result ≡ place_of (room self.now) self.now.head k }
        ensures inside { k < room self.now → result < room self.now }
    {
        let from_head = self.capacity() - self.head;
        if k < from_head {
            self.head + k
        } else {
            k - from_head
        }
    }

    /// The element that is `k` behind the oldest.
    fn at(&self, k: usize) -> T
        requires { k < length (held self.now) }
        ensures { drop k (held self.now) ≡ result ∷ drop (k + 1) (held self.now) }
    {
        let slots = &*self.slots;
        slots[self.place(k)]
    }

    /// Writes behind the newest element.
    fn append(&mut self, x: T)
        requires { length (held self.old) < room self.old }
        ensures after { held self.new ≡ held self.old ++ x ∷ [] }
        ensures slots { self.new.slots.now ≡ slice_set self.old.slots.now (free_place self.old) x }
        ensures only_put { OnlyPut self.old self.new }
    {
        let len = self.len();
        let at = self.place(len);
        self.slots[at] = x;
        self.len = len + 1;
    }

    /// Forgets the oldest element.
    fn remove(&mut self)
        requires { 0 < length (held self.old) }
        ensures after { held self.new ≡ drop 1 (held self.old) }
        ensures only_taken { OnlyTaken self.old self.new }
    {
        self.len = self.len() - 1;
        self.head = self.place(1);
    }
}
