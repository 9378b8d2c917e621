// A door in memory.
ghost use Rattle.std.specs.Prelude.{◌≡◌, ◌≤◌, ◌+◌, ◌↔◌, [], length, vec_len, vec_capacity, map, All, Contains, IsErr, IfOk, IfSome, IfNone, OnErr, Some};
ghost use Rattle.std.specs.VecDeque.{deque_len};
ghost use Rattle.lti_outside.specs.Memory.{link_traffic};
ghost use Rattle.lti_doors.specs.Standing.{IsFresh, HandsOut, TakesBack, HasNoMore, Fails, IsOut};
ghost use Rattle.lti_doors.specs.Memory.{door_standing, NextCall};

use crate::door::{Door, DoorFault};
use lti_outside::{MemoryLink, NoMemory};
use std::alloc::Global;
use std::collections::VecDeque;
use std::marker::Model;

/// A door in memory. It hands its connections out in order and keeps those that came back. The calls of `next`
/// that `failing` names, counted from 0, fail, and no others do.
#[derive(Drop)]
pub struct MemoryDoor {
    waiting: VecDeque<MemoryLink>,
    done: Vec<MemoryLink>,
    out: usize,
    failing: Vec<u64>,
    calls: u64,
    faults: u64,
}

impl Model for MemoryDoor {
    ghost use Rattle.std.specs.Prelude.{◌≤◌, ◌+◌, vec_len, vec_capacity, All};
    ghost use Rattle.std.specs.VecDeque.{deque_len};
    ghost use Rattle.lti_outside.specs.Memory.{link_traffic};
    ghost use Rattle.lti_doors.specs.Standing.{IsFresh};
    ghost use Rattle.lti_doors.specs.Memory.{Doorway};

    ghost Value = { Doorway };

    ghost view = { λ d. record { done = d.done.items; out = d.out; waiting = d.waiting.items; failing = d.failing.items; calls = d.calls; faults = d.faults } };

    ghost invariant = { λ d. ((vec_len d.done + d.out) + deque_len d.waiting ≤ vec_capacity d.done) × All (λ l. IsFresh (link_traffic l)) d.waiting.items };
}

impl MemoryDoor {
    /// A door through which these connections come. It takes the room for all that come back.
    pub fn new(
        alloc: Global,
        ends: Vec<MemoryLink>,
        failing: Vec<u64>,
    ) -> Result<MemoryDoor, NoMemory>
        requires { All (λ l. IsFresh (link_traffic l)) ends.items }
        ensures standing { IfOk result (λ d. door_standing d ≡ record { roll = Some (record { list = []; out = 0; left = map link_traffic ends.items }); faults = 0 }) }
        ensures failing { IfOk result (λ d. (d.failing ≡ failing.items) × (d.calls ≡ 0)) }
    {
        let done = match Vec::with_capacity(alloc, ends.len()) {
            Ok(done) => done,
            Err(_) => return Err(NoMemory),
        };
        Ok(MemoryDoor {
            waiting: VecDeque::from_vec(ends),
            done,
            out: 0,
            failing,
            calls: 0,
            faults: 0,
        })
    }

    /// The connections that came back, in order.
    pub fn done(&self) -> &[MemoryLink]
        ensures { result.now ≡ self.now.done }
    {
        self.done.as_slice()
    }
}

impl Door for MemoryDoor {
    type End = MemoryLink;

    ghost standing = { door_standing };

    fn next(&mut self) -> Result<Option<MemoryLink>, DoorFault>
        ensures some { IfOk result (λ found. IfSome found (λ end. IsFresh (link_traffic end) × HandsOut (door_standing self.old) (door_standing self.new) (link_traffic end))) }
        ensures none { IfOk result (λ found. IfNone found (HasNoMore (door_standing self.old) × (door_standing self.new ≡ door_standing self.old))) }
        ensures failed { OnErr result (Fails (door_standing self.old) (door_standing self.new)) }
        ensures turn { IsErr result ↔ Contains self.old.failing self.old.calls }
        ensures calls { NextCall self.old self.new }
    {
        let call = self.calls;
        self.calls = self.calls.saturating_add(1);
        if self.failing.contains(&call) {
            self.faults = self.faults.saturating_add(1);
            return Err(DoorFault);
        }
        match self.waiting.pop_front() {
            Some(end) => {
                self.out += 1;
                Ok(Some(end))
            }
            None => Ok(None),
        }
    }

    fn back(&mut self, end: MemoryLink)
        requires { IsOut (door_standing self.old) }
        ensures back { TakesBack (door_standing self.old) (door_standing self.new) (link_traffic end) }
        ensures calls { (self.new.failing ≡ self.old.failing) × (self.new.calls ≡ self.old.calls) }
    {
        self.out -= 1;
        self.done.push_reserved(end);
    }
}
