// The machine over a journal, without a history.
ghost use Rattle.std.specs.Prelude.{◌≡◌, ◌⊎◌, ◌*◌, ◌<◌, ◌≤◌, ◌^◌, ℕ, List, length, [], ◌∷◌, ◌++◌, Option, None, Err, true, false, IfOk, IfErr, IsErrAnd, OnOk, OnErr};
ghost use Rattle.lti_outside.specs.Faults.{Rose};
ghost use Rattle.lti_outside.specs.DiskMoments.{LeavesOnly};
ghost use Rattle.gate_journal.specs.Half.{free_of, next_place, payload_of, IsFrame, Recovers, IsDamagedAt};
ghost use Rattle.gate_journal.specs.declared.mount_fault.MountFault.TheVariants as fault;
ghost use Rattle.lti_outside.specs.Limits as limits_range;
ghost use Rattle.gate_journal.specs.Journal.{disk_of, place_of, doubts};
ghost use Rattle.gate_journal.specs.Position.{place_at};
ghost use Rattle.lti_machine.specs.Belongs.{belongs};
ghost use Rattle.lti_machine.specs.EntryBytes.{entry_text, length_of, IsBounded, IsInRange};
ghost use Rattle.lti_machine.specs.Rules as rules;
ghost use Rattle.lti_machine.specs.Sound.{IsSound};
ghost use Rattle.lti_machine.specs.declared.entry.Entry.{Entry};
ghost use Rattle.lti_desk.specs.Keeping.{IsKept, IsOneOf, IsInDoubtAfter};
ghost use Rattle.lti_desk.specs.Ledger.{SameContents, IsReady, IsNext, Adds};

use crate::keeping::keep;
use crate::ledger::Ledger;
use crate::mounting::read_ledger;
use gate_journal::{Journal, Piece, Position, Unmounted, frame};
use gradebook::Gradebook;
use lti_machine::{Call, Entry, Reply, call_len, entry_bytes, entry_of};
use lti_outside::{Bytes, Disk, DiskFault, Limits, NoMemory};
use std::alloc::Global;
use std::snapshot::Snapshot;

/// The machine whose accepted calls are kept in a journal. It has no history, and no limit on the number of calls.
#[derive(Drop)]
pub(crate) struct Keeper<D: Disk> {
    pub(crate) alloc: Global,
    pub(crate) journal: Journal<D>,
    pub(crate) ledger: Ledger,
}

/// Why an entry wasn't kept.
#[derive(Clone, Copy, Debug, PartialEq, Eq)]
pub(crate) enum NotKept {
    /// There was no memory for it. No call of the disk was made.
    NoMemory,
    /// A call of the disk failed.
    DiskFault,
}

// The entry of a call that is accepted, and its bytes as the journal takes them, with room for it in the ledger.
fn make(
    alloc: Global,
    ledger: &mut Ledger,
    call: &Call,
    reply: Reply,
    now: u64,
) -> Result<(Entry, Bytes), NoMemory>
    requires short { length_of (rules.entry_of call.now reply now) < 2 ^ 32 }
    ensures entry { IfOk result (λ made. made.0 ≡ rules.entry_of call.now reply now) }
    ensures frame { IfOk result (λ made. IsFrame made.1.list) }
    ensures payload { IfOk result (λ made. payload_of made.1.list ≡ entry_text (rules.entry_of call.now reply now)) }
    ensures in_range { IsBounded (rules.entry_of call.now reply now) → OnOk result (IsInRange (rules.entry_of call.now reply now)) }
    ensures contents { SameContents ledger.old ledger.new }
    ensures ready { OnOk result (IsReady ledger.new (rules.entry_of call.now reply now)) }
{
    let entry = entry_of(call, reply, now)?;
    let bytes = entry_bytes(alloc, &entry)?;
    let framed = frame(alloc, bytes.get())?;
    ledger.prepare(&entry)?;
    Ok((entry, framed))
}

impl<D: Disk> Keeper<D> {
    ghost use Rattle.lti_desk.specs.Keeper.{Knows, Keeps, payloads, IsAnswered};
    ghost use Rattle.lti_desk.specs.Reading.{AreEntries, IsUnreadAt};
    ghost use Rattle.lti_desk.specs.Responding.{Responds};

    // Keeps the entry of a call with its reply, which is an acceptance, and goes on over the list with it.
    fn accept(&mut self, call: &Call, reply: Reply, now: u64) -> Result<(), NotKept>
        requires room { length_of (rules.entry_of call.now reply now) ≤ free_of (place_of self.old.journal) }
        requires next { IsNext self.old.ledger (rules.entry_of call.now reply now) }
        ensures adds { OnOk result (Adds self.old.ledger self.new.ledger (rules.entry_of call.now reply now)) }
        ensures in_range { OnOk result (IsBounded (rules.entry_of call.now reply now) → IsInRange (rules.entry_of call.now reply now)) }
        ensures contents { OnErr result (SameContents self.old.ledger self.new.ledger) }
        ensures limit { self.new.ledger.window.limit ≡ self.old.ledger.window.limit }
        ensures failed { result ≡ Err NotKept.DiskFault → Rose (D.faults (disk_of self.old.journal)) (D.faults (disk_of self.new.journal)) }
        ensures untouched { result ≡ Err NotKept.NoMemory → self.new.journal ≡ self.old.journal }
        ensures any_moment { (result ≡ Err NotKept.NoMemory → ⊥) → (payloads : List (List ℕ)) (doubt : Option (List (List ℕ))) → IsKept self.old.journal payloads doubt
            → LeavesOnly ⟦<D as Disk>⟧ (disk_of self.old.journal) (disk_of self.new.journal)
            (IsOneOf (place_of self.old.journal).half payloads doubt (payloads ++ entry_text (rules.entry_of call.now reply now) ∷ [])) }
        ensures kept { OnOk result ((payloads : List (List ℕ)) (doubt : Option (List (List ℕ))) → IsKept self.old.journal payloads doubt
            → IsKept self.new.journal (payloads ++ entry_text (rules.entry_of call.now reply now) ∷ []) None) }
        ensures doubt { result ≡ Err NotKept.DiskFault → (payloads : List (List ℕ)) (doubt : Option (List (List ℕ))) → IsKept self.old.journal payloads doubt
            → (after : Option (List (List ℕ))) × IsKept self.new.journal payloads after × IsInDoubtAfter doubt (payloads ++ entry_text (rules.entry_of call.now reply now) ∷ []) after }
        ensures settled { OnOk result (doubts self.new.journal ≡ false) }
        ensures place { OnOk result (place_of self.new.journal ≡ next_place (place_of self.old.journal) (length (entry_text (rules.entry_of call.now reply now)))) }
        ensures place_err { OnErr result (place_of self.new.journal ≡ place_of self.old.journal) }
        ensures faults { OnOk result (D.faults (disk_of self.new.journal) ≡ D.faults (disk_of self.old.journal)) }
    {
        let Ok((entry, framed)) = make(self.alloc, &mut self.ledger, call, reply, now) else {
            return Err(NotKept::NoMemory);
        };
        if let Err(DiskFault) = keep(&mut self.journal, &framed) {
            return Err(NotKept::DiskFault);
        }
        self.ledger.apply(entry);
        Ok(())
    }

    // Answers a call, and says what it did of what was decided over the list.
    fn respond(&mut self, call: &Call) -> Reply
        requires sound { IsSound call.now }
        ensures responds { Responds self.old self.new call.now result }
        ensures belongs { belongs call.now.action result ≡ true }
        ensures settled { rules.is_acceptance result ≡ true → doubts self.new.journal ≡ false }
        ensures limit { self.new.ledger.window.limit ≡ self.old.ledger.window.limit }
    {
        let reply = self.ledger.decide(call);
        if !reply.is_acceptance() {
            return reply;
        }
        let free = self.journal.free();
        if call_len(call, reply) > free {
            return Reply::JournalFull { free };
        }
        let now = self.ledger.now(call);
        match self.accept(call, reply, now) {
            Ok(()) => reply,
            Err(NotKept::NoMemory) => Reply::NoMemory,
            Err(NotKept::DiskFault) => Reply::DiskFault {
                faults: self.journal.faults(),
            },
        }
    }

    /// Answers a call by the rules over all that was accepted, and keeps it on the disk where it is accepted.
    ///
    /// `JournalFull { free }` comes exactly where the call would be accepted and its entry has more bytes than the
    /// `free` ones. `NoMemory` and `DiskFault { faults }` may stand in place of an acceptance; all memory is taken
    /// before the first call of the disk.
    pub(crate) fn answer(&mut self, call: &Call) -> Reply
        requires sound { IsSound call.now }
        ensures answered { IsAnswered self.old self.new call.now result }
        ensures belongs { belongs call.now.action result ≡ true }
        ensures settled { rules.is_acceptance result ≡ true → doubts self.new.journal ≡ false }
        ensures run_full { (entries : List Entry) → Knows self.old entries → result ≡ Reply.RunFull → ⊥ }
    {
        self.respond(call)
    }

    /// Mounts a disk of two halves of `limits.half` bytes, as a crash may have left it, and goes on over the entries
    /// that it keeps, whose pieces it tells. It writes nothing. A key may have `limits.window` nonces that aren't
    /// forgotten.
    ///
    /// `TooSmall` comes exactly where the disk is below two halves. `Damaged { at }` has the place of an open gate
    /// before a piece that passes its half's end, or else before the first piece whose payload is no entry.
    pub(crate) fn mount(
        alloc: Global,
        disk: D,
        limits: &Limits,
    ) -> Result<(Keeper<D>, Snapshot<Vec<Piece>>), Unmounted<D>>
        requires { limits_range.IsSound limits.now }

        // It answers over the entries that the disk as it reads stands for, and so does each of its images from then
        // on.
        ensures known { IfOk result (λ m. (entries : List Entry) × AreEntries m.1.value.items entries × Knows m.0 entries
            × (D.tells → Recovers (D.seen disk) (place_of m.0.journal) (payloads entries) × Keeps m.0 entries None)) }
        ensures seen { IfOk result (λ m. D.seen (disk_of m.0.journal) ≡ D.seen disk) }
        ensures faults { IfOk result (λ m. D.faults (disk_of m.0.journal) ≡ D.faults disk) }
        ensures half { IfOk result (λ m. (place_of m.0.journal).half ≡ limits.now.half) }
        ensures limit { IfOk result (λ m. m.0.ledger.window.limit ≡ limits.now.window) }
        ensures settled { IfOk result (λ m. doubts m.0.journal ≡ false) }
        ensures enough { IfOk result (λ _. 2 * limits.now.half ≤ length (D.seen disk)) }

        // Each image at each moment was one at the start.
        ensures any_moment { IfOk result (λ m. LeavesOnly ⟦<D as Disk>⟧ disk (disk_of m.0.journal) (D.may_leave disk)) }
        ensures any_moment_err { IfErr result (λ u. LeavesOnly ⟦<D as Disk>⟧ disk u.disk (D.may_leave disk)) }
        ensures seen_err { IfErr result (λ u. D.seen u.disk ≡ D.seen disk) }

        ensures small { length (D.seen disk) < 2 * limits.now.half → IsErrAnd result (λ u. (u.fault ≡ fault.TooSmall (length (D.seen disk))) × (u.disk ≡ disk)) }
        ensures small_only { IfErr result (λ u. (size : ℕ) → u.fault ≡ fault.TooSmall size → length (D.seen disk) < 2 * limits.now.half) }
        ensures damaged { D.tells → IfErr result (λ u. (at : ℕ) → u.fault ≡ fault.Damaged at
            → IsDamagedAt (D.seen disk) limits.now.half at ⊎ IsUnreadAt (D.seen disk) limits.now.half at) }
        ensures failed { IfErr result (λ u. u.fault ≡ fault.DiskFault → Rose (D.faults disk) (D.faults u.disk)) }
    {
        let (journal, pieces) = Journal::mount(alloc, disk, limits.half)?;
        match read_ledger(alloc, limits.window, &pieces) {
            Ok(ledger) => {
                let read = Snapshot::of(&pieces);
                let keeper = Keeper {
                    alloc,
                    journal,
                    ledger,
                };
                Ok((keeper, read))
            }
            Err(fault) => Err(Unmounted {
                fault,
                disk: journal.close(),
            }),
        }
    }

    /// Where the journal stands.
    pub(crate) fn position(&self) -> Position
        ensures { place_at result ≡ place_of self.now.journal }
    {
        self.journal.position()
    }

    /// The book of grades.
    pub(crate) fn book(&self) -> &Gradebook
        ensures { result.now ≡ self.now.ledger.book }
    {
        self.ledger.book()
    }

    /// Whether a crash may leave an entry that was answered by a fault of the disk.
    pub(crate) fn doubtful(&self) -> bool
        ensures { result ≡ doubts self.now.journal }
    {
        self.journal.doubtful()
    }

    /// Hands the disk back.
    pub(crate) fn close(self) -> D
        ensures { result ≡ disk_of self.journal }
    {
        let Keeper { journal, .. } = self;
        journal.close()
    }
}
