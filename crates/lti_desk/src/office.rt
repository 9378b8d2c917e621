// The machine over a journal, with its history.
ghost use Rattle.std.specs.Prelude.{◌≡◌, ◌+◌, ◌-◌, ◌%◌, ◌<◌, ◌≤◌, ◌^◌, ℕ, cond, List, length, [], ◌∷◌, ◌++◌, true, vec_len, vec_capacity, IfOk, IfErr};
ghost use Rattle.lti_outside.specs.Limits as limits_range;
ghost use Rattle.gradebook.specs.Book as book;
ghost use Rattle.lti_machine.specs.Belongs.{belongs};
ghost use Rattle.lti_machine.specs.History.{after_all};
ghost use Rattle.lti_machine.specs.Rules as rules;
ghost use Rattle.lti_machine.specs.Sound.{IsSound};
ghost use Rattle.lti_desk.specs.Answering.{Answers};
ghost use Rattle.lti_desk.specs.Lawful.{IsKeeping};
ghost use Rattle.lti_desk.specs.Legal.{acceptances};
ghost use Rattle.lti_desk.specs.Mounting.{IsMounted, IsUnmounted};
ghost use Rattle.lti_desk.specs.Reading.{IsOver};

use crate::keeper::Keeper;
use crate::origin::Origin;
use gate_journal::{MountFault, Unmounted};
use gradebook::Gradebook;
use lti_machine::{Call, Reply};
use lti_outside::{Disk, Limits};
use std::alloc::Global;
use std::marker::Model;
use turn_lock::Kept;

/// The machine whose accepted calls are kept in a journal, with the history of the calls that it answered since it was
/// mounted. It keeps each of them in memory, with its reply, until it is closed. Nobody else may write the disk.
#[derive(Drop)]
pub struct Office<D: Disk> {
    keeper: Keeper<D>,
    trail: Vec<(Call, Reply)>,
    most: u32,
    turns: u64,
    accepted: u32,
    began: Origin,
}

impl<D: Disk> Model for Office<D> {
    ghost use Rattle.lti_desk.specs.Office.{OfficeValue};

    ghost Value = { OfficeValue D };

    ghost use Rattle.std.specs.Prelude.{◌≡◌, ◌≤◌, vec_len, vec_capacity};
    ghost use Rattle.gate_journal.specs.Journal.{disk_of, place_of, doubts};
    ghost use Rattle.lti_desk.specs.Held.{IsLed, seen_as};
    ghost use Rattle.lti_desk.specs.Legal.{acceptances};

    ghost view = { λ o. seen_as o.keeper o.trail.items o.most o.turns o.began };

    ghost invariant = { λ o. (o.most ≤ vec_capacity o.trail) × (vec_len o.trail ≤ o.most) × IsLed o.keeper o.began o.trail.items × (o.accepted ≡ acceptances o.trail.items) };
}

// Adds a member to a history, for which there is room.
fn append(trail: &mut Vec<(Call, Reply)>, call: Call, reply: &Reply)
    requires room { vec_len trail.old < vec_capacity trail.old }
    ensures items { trail.new.items ≡ trail.old.items ++ (call, reply.now) ∷ [] }
    ensures len { vec_len trail.new ≡ vec_len trail.old + 1 }
    ensures capacity { vec_capacity trail.new ≡ vec_capacity trail.old }
{
    trail.push_reserved((call, *reply));
}

// The count of acceptances after a reply.
fn count_with(accepted: u32, reply: &Reply) -> u32
    requires room { accepted < 2 ^ 32 - 1 }
    ensures count { result ≡ accepted + cond (rules.is_acceptance reply.now) 1 0 }
{
    if reply.is_acceptance() {
        accepted + 1
    } else {
        accepted
    }
}

impl<D: Disk> Office<D> {
    /// Mounts a disk of two halves of `limits.half` bytes, as a crash may have left it, and goes on over the entries
    /// that it keeps. It writes nothing. A key may have `limits.window` nonces that aren't forgotten, and the office
    /// answers `limits.calls` calls, for whose history it takes the memory here. Each entry costs look-ups in the
    /// window and in the book, and none walks over the entries before it.
    ///
    /// `TooSmall` comes exactly where the disk is below two halves. `Damaged { at }` has the place of an open gate
    /// before a piece that passes its half's end, or else before the first piece whose payload is no entry.
    /// `NoMemory` says that memory was wanting. Each hands back the disk, which is as it was but for its count of
    /// faults.
    pub fn mount(alloc: Global, disk: D, limits: &Limits) -> Result<Office<D>, Unmounted<D>>
        requires { limits_range.IsSound limits.now }
        ensures mounted { IfOk result (λ office. IsMounted ⟦<D as Disk>⟧ limits.now disk office) }
        ensures unmounted { IfErr result (λ unmounted. IsUnmounted ⟦<D as Disk>⟧ limits.now disk unmounted) }
    {
        let faults = disk.faults();
        let (keeper, pieces) = Keeper::mount(alloc, disk, limits)?;
        match Vec::with_capacity(alloc, limits.calls as usize) {
            Ok(trail) => {
                let journal = keeper.position();
                Ok(Office {
                    keeper,
                    trail,
                    most: limits.calls,
                    turns: 0,
                    accepted: 0,
                    began: Origin {
                        pieces,
                        journal,
                        window: limits.window,
                        faults,
                    },
                })
            }
            Err(_) => Err(Unmounted {
                fault: MountFault::NoMemory,
                disk: keeper.close(),
            }),
        }
    }

    /// Answers a call by the rules over all that was accepted, and keeps it on the disk where it is accepted.
    ///
    /// `RunFull` comes exactly where as many calls were answered as may be, and leaves all as it was but the number
    /// of turns. Any other reply becomes the last of the history, with its call. `JournalFull { free }` comes exactly
    /// where the call would be accepted and its entry has more bytes than the `free` ones. `NoMemory` and `DiskFault
    /// { faults }` may stand in place of an acceptance; all memory is taken before the first call of the disk.
    pub fn answer(&mut self, call: Call) -> Reply
        requires sound { IsSound call }
        ensures answered { Answers ⟦<D as Disk>⟧ self.old call result self.new }
        ensures turns { self.new.turns ≡ (self.old.turns + 1) % 2 ^ 64 }
        ensures belongs { belongs call.action result ≡ true }
    {
        self.turns = self.turns.wrapping_add(1);
        if self.trail.len() as u64 >= u64::from(self.most) {
            return Reply::RunFull;
        }
        let reply = self.keeper.answer(&call);
        self.accepted = count_with(self.accepted, &reply);
        append(&mut self.trail, call, &reply);
        reply
    }

    /// What holds of every office between two calls. It does nothing.
    pub fn facts(&self)
        ensures keeps { IsKeeping ⟦<D as Disk>⟧ self.now }
    {
        let _ = &self.keeper;
    }

    /// How many calls were answered since it was mounted, without those that were told that the run is full.
    pub fn calls(&self) -> u32
        ensures calls { result ≡ length self.now.trail }
    {
        let most = u64::from(self.most);
        (self.trail.len() as u64).min(most) as u32
    }

    /// How many of them were accepted.
    pub fn accepted(&self) -> u32
        ensures accepted { result ≡ acceptances self.now.trail }
    {
        self.accepted
    }

    /// The book of grades of all that was accepted, also before it was mounted.
    pub fn book(&self) -> &Gradebook
        ensures book { IsOver self.now.origin (λ entries. book.Holds result.now (after_all entries self.now.trail)) }
    {
        self.keeper.book()
    }

    /// Whether a crash may leave the entry of a call that was answered by a fault of the disk.
    pub fn doubtful(&self) -> bool
        ensures { result ≡ self.now.doubtful }
    {
        self.keeper.doubtful()
    }

    /// Hands the disk back, as the last call left it.
    pub fn close(self) -> D
        ensures { result ≡ self.disk }
    {
        let Office { keeper, .. } = self;
        keeper.close()
    }
}

impl<D: Disk> Kept for Office<D> {
    ghost use Rattle.lti_machine.specs.Sound.{IsSound};
    ghost use Rattle.lti_desk.specs.Lawful.{is_run_full, IsLawful};

    type Job = Call;

    type Answer = Reply;

    type Origin = Origin;

    ghost trail = { λ o. o.trail };

    ghost origin = { λ o. o.origin };

    ghost limit = { λ o. o.limit };

    ghost turned = { λ o. o.turns };

    ghost accepts = { IsSound };

    ghost refuses = { is_run_full };

    ghost law = { IsLawful };

    fn answer(&mut self, job: Call) -> Reply {
        Office::answer(self, job)
    }

    fn turns(&self) -> u64 {
        self.turns
    }
}
