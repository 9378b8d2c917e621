// What a command on grades is done over: the settings, and the office of the journal.
ghost use Rattle.std.specs.Prelude.{◌≡◌, Ok, IfOk, IfErr};
ghost use Rattle.lti_outside.specs.Limits.{IsSound};
ghost use Rattle.lti_desk.specs.Mounting.{IsMounted};
ghost use Rattle.lti_settings.specs.SettingsRead.{ReadsSettings};
ghost use Rattle.lti_operator.specs.Ladder.{mount_status};
ghost use Rattle.lti_operator.specs.Opening.{Unmounts, Unopens};

use gate_journal::MountFault;
use lti_desk::Office;
use lti_outside::{Disk, Limits, Source};
use lti_settings::{Settings, read_settings};
use lti_words::Status;
use std::alloc::Global;

// How a run ends whose journal can't be mounted.
fn status_of(fault: MountFault) -> Status
    ensures { result ≡ mount_status fault }
{
    match fault {
        MountFault::TooSmall { .. } => Status::JournalTooSmall,
        MountFault::DiskFault => Status::DiskFault,
        MountFault::Damaged { .. } => Status::DamagedJournal,
        MountFault::NoMemory => Status::NoMemory,
    }
}

/// Mounts the journal of a disk. Where that fails, the disk is handed back with the status that the run ends with; nothing
/// was written to it.
pub fn open_journal<D: Disk>(
    alloc: Global,
    disk: D,
    limits: &Limits,
) -> Result<Office<D>, (Status, D)>
    requires { IsSound limits.now }
    ensures mounted { IfOk result (λ office. IsMounted ⟦<D as Disk>⟧ limits.now disk office) }
    ensures unmounted { IfErr result (λ u. Unmounts ⟦<D as Disk>⟧ limits.now disk u.1 u.0) }
{
    match Office::mount(alloc, disk, limits) {
        Ok(office) => Ok(office),
        Err(unmounted) => Err((status_of(unmounted.fault), unmounted.disk)),
    }
}

/// Reads the settings, and then mounts the journal of a disk. Where one of them fails, the disk is handed back with the
/// status that the run ends with; nothing was written to it.
pub fn open<S: Source, D: Disk>(
    alloc: Global,
    settings: &mut S,
    disk: D,
    limits: &Limits,
) -> Result<(Settings, Office<D>), (Status, D)>
    requires { IsSound limits.now }
    ensures settings { IfOk result (λ opened. ReadsSettings (S.traffic settings.old) (S.traffic settings.new) (Ok opened.0)) }
    ensures mounted { IfOk result (λ opened. IsMounted ⟦<D as Disk>⟧ limits.now disk opened.1) }
    ensures unopened { IfErr result (λ u. Unopens ⟦<D as Disk>⟧ limits.now (S.traffic settings.old) (S.traffic settings.new) disk u.1 u.0) }
{
    let read = match read_settings(alloc, settings) {
        Err(none) => return Err((none.status(), disk)),
        Ok(read) => read,
    };
    match open_journal(alloc, disk, limits) {
        Ok(office) => Ok((read, office)),
        Err(unmounted) => Err(unmounted),
    }
}
