// Which call on a file failed.
use disk_model::FileMachine;
use redo_shell::Status;
use std::io::ErrorKind;

/// Whether a file that was there, or was to be made, could not be opened for a reason of this kind: that is done by the first call
/// on it, which is a sync.
fn keeps_from_opening(kind: ErrorKind) -> bool {
    match kind {
        ErrorKind::PermissionDenied
        | ErrorKind::NotFound
        | ErrorKind::IsADirectory
        | ErrorKind::ReadOnlyFilesystem => true,
        _ => false,
    }
}

/// Says on standard error which file it was, what could not be done with it, and the system's reason, where the status is one of
/// the store's disk or of the backup's.
pub fn tell_fault(
    rt: HostRuntime,
    status: Status,
    store: &FileMachine<HostRuntime>,
    backup: &FileMachine<HostRuntime>,
) {
    let machine = match status {
        Status::DiskFault => store,
        Status::BackupFault => backup,
        _ => return,
    };
    if let Some(fault) = machine.fault() {
        let call = fault.call;
        let path = machine.path(fault.file);
        let reason = &fault.reason;
        let _told = if keeps_from_opening(reason.kind()) {
            eprintln!(rt; "redo: cannot open {path}: {reason}")
        } else {
            eprintln!(rt; "redo: cannot {call} {path}: {reason}")
        };
    }
}
