//! Messages that wait in places of memory.

ghost use Rattle.std.specs.Prelude.{◌≡◌, ◌+◌, ◌*◌, ◌^◌, ◌<◌, ◌≤◌, ◌/◌, ◌&&◌, [], length, is_ok, IfErr, nat_lt, ⊤};
ghost use Rattle.values.specs.Bounds.{Between};
ghost use Rattle.layout.specs.Layout.{counted};
ghost use Rattle.carrier.specs.Carried.{sendable, why_not_put, written};
ghost use Rattle.writer.specs.Octets.{over};
ghost use Rattle.ring.specs.Places.{Filled, message_in, around, Sound};

use crate::memory::Memory;
use carrier::undone::Undone;
use layout::fault::Fault;
use std::alloc::AllocError;
use values::bounds::check_least;

/// The octets of a place: two for the length of its message, and 512 for the message.
pub const PLACE: usize = 514;

// Writes a message, with its length before it, from an octet on.
#[tactic(auto, using(crate::proofs::Overwritten::message_stored))]
fn store<M: Memory>(memory: &mut M, at: usize, message: &[u8])
    requires within { at + 514 ≤ length (M.octets memory.old) }
    requires addressable { at + 514 < 2 ^ 64 }
    requires size { Between 4 512 (length message.now) }
    ensures name { M.name memory.new ≡ M.name memory.old }
    ensures size { M.size memory.new ≡ M.size memory.old }
    ensures octets { M.octets memory.new ≡ over (M.octets memory.old) at (counted message.now) }
{
    let [.., high, low] = message.len().to_be_bytes();
    memory.write(at, &[high, low]);
    memory.write(at + 2, message);
}

// Copies the message of a place to the front of memory, and says its length.
fn load(place: &[u8], memory: &mut [u8]) -> usize
    requires place { length place.now ≡ 514 }
    requires filled { Filled place.now }
    requires room { 512 ≤ length memory.old }
    ensures answer { result ≡ length (message_in place.now) }
    ensures memory { memory.new ≡ written (message_in place.now) memory.old }
{
    let len = usize::from(u16::from_be_bytes([place[0], place[1]]));
    memory[..len].copy_from_slice(&place[2..2 + len]);
    len
}

// The place with a number below twice `places`: past the last, from the first again.
fn wrapped(number: usize, places: usize) -> usize
    ensures { result ≡ around places number }
{
    if number < places {
        number
    } else {
        number - places
    }
}

// That octets can be put behind those that wait: a place is free, and they are 4 to 512.
fn admit(waiting: usize, places: usize, octets: &[u8]) -> Result<(), Undone>
    ensures answer { is_ok result ≡ (nat_lt waiting places && sendable octets.now) }
    ensures why { IfErr result (λ e. e ≡ why_not_put (nat_lt waiting places)) }
{
    if waiting >= places {
        Err(Undone::NoPlace)
    } else if !(4..=512).contains(&octets.len()) {
        Err(Undone::Size)
    } else {
        Ok(())
    }
}

/// Places in memory. Of `places`, `count` hold messages that wait, the first of them at `head`.
// A queue in the memory that there is: there is no heap.
#[derive(Drop)]
pub struct Places<M: Memory> {
    pub memory: M,
    pub places: usize,
    pub head: usize,
    pub count: usize,
    ghost sound: { Sound (M.octets memory) places head count },
    ghost addressable: { 514 * places < 2 ^ 64 },
}

// By hand: a derive is refused on a generic struct with a type parameter and a ghost field.
impl<M: Memory + Copy> Copy for Places<M> {}

impl<M: Memory + Copy> Clone for Places<M> {
    ghost is_clone = { λ p q. q ≡ p };

    ghost is_infallible = { λ _. ⊤ };

    fn clone(&self) -> Result<Self, AllocError> {
        Ok(*self)
    }
}

#[tactic(auto, using(crate::proofs::Rings::queues))]
impl<M: Memory> Places<M> {
    ghost use Rattle.ring.specs.Queues.{Puts, TakesFrom};
    ghost use Rattle.ring.specs.Waiting.{queued};

    /// Places in memory, a place to each 514 octets, in which nothing waits.
    // What `Ring::new` asks of its memory is handed down to here.
    pub(crate) fn new(memory: M) -> Places<M>
        requires { 514 ≤ M.size memory }
        ensures memory { result.memory ≡ memory }
        ensures places { result.places ≡ M.size memory / 514 }
        ensures waiting { queued result ≡ [] }
    {
        let places = memory.octets().len() / PLACE;
        Places {
            memory,
            places,
            head: 0,
            count: 0,
        }
    }

    /// How many messages wait.
    pub fn len(&self) -> usize
        ensures { result ≡ length (queued self.now) }
    {
        self.count
    }

    /// How many messages may wait at once.
    pub fn size(&self) -> usize
        ensures { result ≡ self.now.places }
    {
        self.places
    }

    /// Puts octets behind those that wait, if they are 4 to 512 and a place is free.
    pub fn offer(&mut self, octets: &[u8]) -> Result<(), Undone>
        ensures name { M.name self.new.memory ≡ M.name self.old.memory }
        ensures size { M.size self.new.memory ≡ M.size self.old.memory }
        ensures places { self.new.places ≡ self.old.places }
        ensures puts { Puts (queued self.old) self.old.places octets.now result (queued self.new) }
    {
        admit(self.len(), self.places, octets)?;
        let at = PLACE * wrapped(self.head + self.count, self.places);
        store(&mut self.memory, at, octets);
        self.count += 1;
        Ok(())
    }

    /// Takes the first message out, to the front of memory of 512 octets or more, and says its length; 0 where none waits.
    pub fn take_into(&mut self, memory: &mut [u8]) -> Result<usize, Fault>
        ensures memory { self.new.memory ≡ self.old.memory }
        ensures places { self.new.places ≡ self.old.places }
        ensures takes { TakesFrom (queued self.old) memory.old result (queued self.new) memory.new }
    {
        check_least(memory.len(), 512)?;
        if self.count == 0 {
            return Ok(0);
        }
        let at = PLACE * self.head;
        let len = load(&self.memory.octets()[at..at + PLACE], memory);
        self.head = wrapped(self.head + 1, self.places);
        self.count -= 1;
        Ok(len)
    }

    /// The memory, as it is.
    pub(crate) fn into_memory(self) -> M
        ensures { result ≡ self.memory }
    {
        let Places {
            memory,
            places: _,
            head: _,
            count: _,
        } = self;
        memory
    }
}
