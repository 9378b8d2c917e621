// Laws of what an office keeps, and of histories.
ghost use Rattle.std.specs.Prelude.{◌≡◌, ◌≤◌, ℕ, List, All};
ghost use Rattle.gate_journal.specs.Pieces.{payloads_of};
ghost use Rattle.gate_journal.specs.declared.piece.Piece.{Piece};
ghost use Rattle.lti_machine.specs.History.{Member, Leads, AcceptsByRules};
ghost use Rattle.lti_machine.specs.EntryBytes.{IsInRange};
ghost use Rattle.lti_machine.specs.declared.call.Call.{Call};
ghost use Rattle.lti_machine.specs.declared.entry.Entry.{Entry};
ghost use Rattle.lti_machine.specs.declared.reply.Reply.{Reply};
ghost use Rattle.lti_desk.specs.Ledger.{HoldsAlike, HoldsDigest};
ghost use Rattle.lti_desk.specs.Reading.{AreEntries};
ghost use Rattle.lti_desk.specs.Answering.{Answers, Leaves, LeavesFrom};
ghost use Rattle.lti_desk.specs.Lawful.{IsLawful, IsKeeping, KeepsFrom, start};
ghost use Rattle.lti_desk.specs.Office.{OfficeValue};
ghost use Rattle.lti_desk.specs.Serving.{Serves};
ghost use Rattle.lti_desk.specs.Keeper.{payloads};
ghost use Rattle.lti_desk.specs.Legal.{Point, Legal, TellsAtMost, reach};
ghost use Rattle.lti_desk.specs.declared.origin.Origin.{Origin};

use lti_outside::Disk;

/// Payloads in which entries are kept are read as these entries, and as no others. So what a mounting finds on a disk
/// that stands for the payloads of a list is that list.
pub fn what_is_kept_is_read()
    ensures read { (pieces : List Piece) (entries : List Entry) → All IsInRange entries → payloads_of pieces ≡ payloads entries → AreEntries pieces entries }
    ensures one { (first second : List Entry) → All IsInRange first → All IsInRange second → payloads first ≡ payloads second → first ≡ second }
{}

/// A ledger holds each list of one summary, or none; so it holds the digest at the moment of its last entry with that
/// entry.
pub fn a_digest_is_held()
    ensures alike { HoldsAlike }
    ensures digest { HoldsDigest }
{}

/// Pieces have the entries of one list at most. So the list that an office began with is one, and each clause that
/// names such a list speaks of the same.
pub fn what_was_read_is_one_list()
    ensures one { (pieces : List Piece) (first second : List Entry) → AreEntries pieces first → AreEntries pieces second → first ≡ second }
    ensures lawful { (origin : Origin) (trail : List Member) (began : List Entry) → IsLawful origin trail → AreEntries origin.pieces.value.items began
        → Legal origin.window (start origin began) trail }
{}

/// What an office keeps, and what one answer does, holds over each list that its pieces have as entries, and so over
/// the same.
pub fn what_is_kept_is_over_one_list<D: Disk>()
    ensures keeps { (office : OfficeValue D) (began : List Entry) → IsKeeping ⟦<D as Disk>⟧ office → AreEntries office.origin.pieces.value.items began
        → KeepsFrom ⟦<D as Disk>⟧ office began }
    ensures leaves { (old new : OfficeValue D) (call : Call) (given : Reply) (began : List Entry) → Leaves ⟦<D as Disk>⟧ old new call given
        → AreEntries old.origin.pieces.value.items began → LeavesFrom ⟦<D as Disk>⟧ old new call given began }
{}

/// The counts of faults that a legal history tells never fall: each is at most the one that it told last.
pub fn told_faults_never_fall()
    ensures last { (window : ℕ) (from : Point) (trail : List Member) → Legal window from trail → from.faults ≤ (reach from trail).faults }
    ensures each { (window : ℕ) (from : Point) (trail : List Member) → Legal window from trail → All (λ m. TellsAtMost (reach from trail).faults m.1) trail }
{}

/// A legal history goes by the rules: each accepted call was told what they decide over all that was accepted before it. So in
/// it no nonce is accepted twice, nor one that stood before it began (`lti_machine::no_nonce_is_accepted_twice`), and a grade
/// is told as it was set (`lti_machine::a_grade_is_told_as_it_was_set`).
pub fn a_legal_history_goes_by_the_rules()
    ensures { (window : ℕ) (from : Point) (trail : List Member) → Legal window from trail → AcceptsByRules window from.entries trail }
{}

/// A run of calls, each answered by the office as the one before it left it, does what `Serves` says: the history
/// gains its members, and a crash at any moment of it leaves all that was accepted before, and of the run what some front of
/// it was.
pub fn a_run_serves<D: Disk>()
    ensures { (from to : OfficeValue D) (told : List Member) → Leads (λ old call given new. Answers ⟦<D as Disk>⟧ old call given new) from told to → IsKeeping ⟦<D as Disk>⟧ from
        → Serves ⟦<D as Disk>⟧ from told to }
{}
