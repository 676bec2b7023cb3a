//! The connections that are held: how they are taken in, visited and let go, and how many there may be.

ghost use Rattle.std.specs.Prelude.{◌≡◌, ◌≢◌, ◌<◌, ◌+◌, ◌^◌, [], None, Some, false, true, IfOk, ⊤};
ghost use Rattle.slab.specs.Slab.{Updates, get};
ghost use Rattle.counter_loop.specs.Boxes.{AreAllParted, IsPartedAfter, MayGo, StaysSuited};
ghost use Rattle.counter_loop.specs.Rounds.{IsCalled, StaysFit, StaysFitAt};
ghost use Rattle.counter_loop.specs.Served.{EachIsServed, IsServedUnder};
ghost use Rattle.counter_loop.specs.declared.client.Client.{Client};

use crate::client::{Client, WaitsFor};
use crate::service::Service;
use counter_door::{Door, Parted, TwoWay};
use http_messages::FieldRoom;
use mio::Registry;
use slab::Slab;
use std::alloc::{AllocError, Global};
use std::io::ErrorKind;
use std::time::{Duration, Instant};

/// How many connections are held at once.
const MOST_CONNECTIONS: usize = 1_000;

/// How many bytes may wait over all connections before one with bytes that wait has no further turn.
const MOST_WAITING_OF_ALL: usize = 16_777_216;

/// The connections that are held, each under a key, by which the system reports it; the number of the next; how many bytes
/// wait over all; the room for a head's fields, which all share; and those that were let go.
#[derive(Drop)]
pub(crate) struct Clients<T: Drop> {
    slab: Slab<Client<T>>,
    next: u64,
    waiting: usize,
    fields: FieldRoom,
    parted: Parted<T>,
}

impl<T: Drop> Clients<T> {
    /// None yet. An error comes if memory was refused.
    pub(crate) fn new(alloc: Global) -> Result<Clients<T>, AllocError>
        ensures held { IfOk result (λ clients. clients.slab.slots ≡ []) }
        ensures next { IfOk result (λ clients. clients.next ≡ 0) }
        ensures parted { IfOk result (λ clients. clients.parted.log.items ≡ []) }
    {
        Ok(Clients {
            slab: Slab::new(alloc),
            next: 0,
            waiting: 0,
            fields: FieldRoom::new(alloc)?,
            parted: Parted::new(),
        })
    }

    /// Whether none is held.
    pub(crate) fn is_empty(&self) -> bool {
        self.slab.is_empty()
    }

    /// Whether one waits for another visit.
    pub(crate) fn any_has_more(&self) -> bool {
        for key in 0..self.slab.capacity() {
            if self.waits_for_visit(key) {
                return true;
            }
        }
        false
    }

    /// Whether a connection waits for another visit.
    fn waits_for_visit(&self, key: usize) -> bool
        ensures yes { result ≡ true → (c : Client T) × (get self.now.slab key ≡ Some c) × (c.waits_for ≡ WaitsFor.Visit) }
        ensures no { result ≡ false → (c : Client T) → get self.now.slab key ≡ Some c → c.waits_for ≢ WaitsFor.Visit }
    {
        match self.slab.get(key) {
            Some(client) => client.waits_for() == WaitsFor::Visit,
            None => false,
        }
    }

    /// The connection on which nothing is under way, and nothing has moved for longest.
    fn longest_idle(&self, now: Instant) -> Option<usize> {
        let mut longest: Option<(usize, Duration)> = None;
        for key in 0..self.slab.capacity() {
            if let Some(client) = self.slab.get(key)
                && let Some(idle) = client.idle_for(now)
            {
                let is_longer = match longest {
                    Some((_, most)) => idle > most,
                    None => true,
                };
                if is_longer {
                    longest = Some((key, idle));
                }
            }
        }
        longest.map(|(key, _)| key)
    }

    /// Whether one more connection may be taken in: there is a number for it, and room, or one is idle, which would give way.
    pub(crate) fn may_take_in(&self, now: Instant) -> bool
        ensures { result ≡ true → self.now.next + 1 < 2 ^ 64 }
    {
        if self.next == u64::MAX {
            return false;
        }
        self.slab.len() < MOST_CONNECTIONS || self.longest_idle(now).is_some()
    }

    /// Those that were let go.
    pub(crate) fn into_parted(self) -> Parted<T>
        ensures { result ≡ self.parted }
    {
        self.parted
    }
}

impl<T: TwoWay + Drop> Clients<T> {
    /// Lets go of a connection.
    fn let_go(&mut self, key: usize)
        ensures suited { MayGo T.failed self.old key → StaysSuited T.begins T.ways T.full T.failed self.old self.new }
        ensures fit { MayGo T.failed self.old key → StaysFit T.begins T.ways T.full T.failed self.old self.new }
        ensures gone { Updates self.old.slab self.new.slab key None }
        ensures next { self.new.next ≡ self.old.next }
        ensures parted { IsPartedAfter self.old.parted.log.items self.new.parted.log.items (get self.old.slab key) }
    {
        if let Some(client) = self.slab.try_remove(key) {
            self.waiting = self.waiting.saturating_sub(client.waiting());
            self.parted.part(client.into_stream());
        }
    }

    /// Lets go of all.
    pub(crate) fn let_go_of_all(&mut self)
        ensures { AreAllParted T.begins T.ways T.full T.failed self.old self.new }
    {
        for key in 0..self.slab.capacity() {
            self.let_go(key);
        }
    }

    /// Lets go of the connections on which something took too long.
    pub(crate) fn let_go_of_late(&mut self, now: Instant)
        ensures fit { StaysFitAt T.begins T.ways T.full T.failed now self.old self.new }
        ensures next { self.new.next ≡ self.old.next }
    {
        for key in 0..self.slab.capacity() {
            self.let_go_if_late(key, now);
        }
    }

    /// Lets go of a connection on which something took too long.
    fn let_go_if_late(&mut self, key: usize, now: Instant)
        ensures fit { StaysFitAt T.begins T.ways T.full T.failed now self.old self.new }
        ensures next { self.new.next ≡ self.old.next }
    {
        let Some(client) = self.slab.get(key) else {
            return;
        };
        if !client.is_late(now) {
            return;
        }
        self.let_go(key);
    }

    /// Lets go of a connection on which nothing is under way.
    fn let_go_if_idle(&mut self, key: usize)
        ensures fit { StaysFit T.begins T.ways T.full T.failed self.old self.new }
        ensures next { self.new.next ≡ self.old.next }
    {
        let Some(client) = self.slab.get(key) else {
            return;
        };
        if !client.is_idle() {
            return;
        }
        self.let_go(key);
    }

    /// Makes room for one more connection where there is none: the one that was idle longest gives way.
    pub(crate) fn make_room(&mut self, now: Instant)
        ensures fit { StaysFit T.begins T.ways T.full T.failed self.old self.new }
        ensures next { self.new.next ≡ self.old.next }
    {
        if self.slab.len() < MOST_CONNECTIONS {
            return;
        }
        match self.longest_idle(now) {
            Some(key) => self.let_go_if_idle(key),
            None => {}
        }
    }

    /// Takes in a connection that begins now, and has the system report it. Where memory is refused, or the system does
    /// not take it, it is let go.
    pub(crate) fn take_in(&mut self, alloc: Global, registry: &Registry, stream: T, now: Instant)
        requires begun { T.begins (T.ways stream) ≡ true }
        requires room { self.old.next + 1 < 2 ^ 64 }
        ensures fit { StaysFit T.begins T.ways T.full T.failed self.old self.new }
        ensures next { self.new.next ≡ self.old.next + 1 }
    {
        let Some(key) = self.insert(alloc, stream, now) else {
            return;
        };
        if self.register(registry, key) {
            return;
        }
        self.let_go_if_idle(key);
    }

    /// Gives a connection that begins now the next number, and answers its key. If memory was refused it is let go, and there is
    /// none.
    fn insert(&mut self, alloc: Global, stream: T, now: Instant) -> Option<usize>
        requires begun { T.begins (T.ways stream) ≡ true }
        requires room { self.old.next + 1 < 2 ^ 64 }
        ensures fit { StaysFit T.begins T.ways T.full T.failed self.old self.new }
        ensures next { self.new.next ≡ self.old.next + 1 }
    {
        let number = self.next;
        self.next = number + 1;
        let client = match Client::new(alloc, number, stream, now) {
            Ok(client) => client,
            Err(stream) => {
                self.parted.part(stream);
                return None;
            }
        };
        match self.slab.insert(client) {
            Ok(key) => Some(key),
            Err(failed) => {
                self.parted.part(failed.value.into_stream());
                None
            }
        }
    }

    /// Has the system report when a connection is ready. Returns whether it will.
    fn register(&mut self, registry: &Registry, key: usize) -> bool
        ensures fit { StaysFit T.begins T.ways T.full T.failed self.old self.new }
        ensures next { self.new.next ≡ self.old.next }
    {
        match self.slab.get_mut(key) {
            Some(client) => client.register(registry, key),
            None => false,
        }
    }
}

/// Lets in each connection that waits at a door, as long as there is room. One that can't be accepted is passed over.
pub(crate) fn let_in<D: Door>(
    clients: &mut Clients<D::Stream>,
    alloc: Global,
    registry: &Registry,
    door: &mut D,
    now: Instant,
)
    ensures fit { StaysFit D.Stream.begins D.Stream.ways D.Stream.full D.Stream.failed clients.old clients.new }
    ensures given { D.given door.new + clients.old.next ≡ D.given door.old + clients.new.next }
{
    for _ in 0..MOST_CONNECTIONS {
        if !let_in_one(clients, alloc, registry, door, now) {
            return;
        }
    }
}

/// Lets in the connection that waits longest at a door, if there is room. Answers whether another may wait.
fn let_in_one<D: Door>(
    clients: &mut Clients<D::Stream>,
    alloc: Global,
    registry: &Registry,
    door: &mut D,
    now: Instant,
) -> bool
    ensures fit { StaysFit D.Stream.begins D.Stream.ways D.Stream.full D.Stream.failed clients.old clients.new }
    ensures given { D.given door.new + clients.old.next ≡ D.given door.old + clients.new.next }
{
    if !clients.may_take_in(now) {
        return false;
    }
    match door.next() {
        Ok(stream) => {
            clients.make_room(now);
            clients.take_in(alloc, registry, stream, now);
            true
        }
        Err(e) => e.kind() != ErrorKind::WouldBlock,
    }
}

impl<T: TwoWay + Drop> Clients<T> {
    /// Visits a connection, and lets it go if it is over.
    pub(crate) fn visit<E: Service>(&mut self, key: usize, service: &mut E, now: Instant)
        ensures { IsServedUnder T.begins T.ways T.used_up T.full T.failed now E.status E.users E.may_give key self.old self.new service.old service.new }
    {
        let may_fill = self.waiting <= MOST_WAITING_OF_ALL;
        let Some(client) = self.slab.get_mut(key) else {
            return;
        };
        let waited = client.waiting();
        client.visit(service, &mut self.fields, may_fill, now);
        let others = self.waiting.saturating_sub(waited);
        self.waiting = others.saturating_add(client.waiting());
        if client.waits_for() == WaitsFor::Nothing {
            self.let_go(key);
        }
    }

    /// Has a connection wait for a visit.
    pub(crate) fn call(&mut self, key: usize)
        ensures { IsCalled (λ k. k ≡ key) self.old self.new }
    {
        let Some(client) = self.slab.get_mut(key) else {
            return;
        };
        client.wait_for_visit();
    }

    /// Visits the connections that wait for a visit.
    pub(crate) fn visit_again<E: Service>(&mut self, service: &mut E, now: Instant)
        ensures { EachIsServed T.begins T.ways T.used_up T.full T.failed now E.status E.users E.may_give (λ c. c.waits_for ≡ WaitsFor.Visit) self.old self.new service.old service.new }
    {
        for key in 0..self.slab.capacity() {
            if !self.waits_for_visit(key) {
                continue;
            }
            self.visit(key, service, now);
        }
    }

    /// Hears of no more than has come of a connection.
    fn end_reading(&self, key: usize) {
        if let Some(client) = self.slab.get(key) {
            client.end_reading();
        }
    }

    /// Hears of no more than has come of any connection, and visits each.
    pub(crate) fn visit_last<E: Service>(&mut self, service: &mut E, now: Instant)
        ensures { EachIsServed T.begins T.ways T.used_up T.full T.failed now E.status E.users E.may_give (λ _. ⊤) self.old self.new service.old service.new }
    {
        for key in 0..self.slab.capacity() {
            self.end_reading(key);
            self.visit(key, service, now);
        }
    }
}
