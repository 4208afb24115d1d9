// Laws over the definitions, each the contract of a function that does nothing.
ghost use Rattle.zn_model.specs.RecoveryLaws.{RecoveryIsRow, RecoveryLeavesOthers, RecoveryMayRemount, RecoveryOfMounted, RecoveryOfFailedReport, RecoveryAfterRead, RequestsEnd, PolicyTable};
ghost use Rattle.zn_model.specs.ModelCases.{LayoutCases, AccessCases, PiecesCase, TextCases};

/// A recovery sets the file's state to the policy's row.
pub fn recovery_is_row()
    ensures { RecoveryIsRow }
{}

/// A recovery changes no other file.
pub fn recovery_leaves_others()
    ensures { RecoveryLeavesOthers }
{}

/// A recovery makes the file system read-only exactly where the policy says so.
pub fn recovery_may_remount()
    ensures { RecoveryMayRemount }
{}

/// A recovery of a mounted volume's file, with power and no faults.
pub fn recovery_of_mounted()
    ensures { RecoveryOfMounted }
{}

/// A recovery whose report fails.
pub fn recovery_of_failed_report()
    ensures { RecoveryOfFailedReport }
{}

/// A recovery after a read, which may change nothing.
pub fn recovery_after_read()
    ensures { RecoveryAfterRead }
{}

/// The requests that a recovery ends, and those that it leaves.
pub fn requests_end()
    ensures { RequestsEnd }
{}

/// The table of policies, row by row.
pub fn policy_table()
    ensures { PolicyTable }
{}

/// Layouts, paths and places.
pub fn layout_cases()
    ensures { LayoutCases }
{}

/// Who may open a file.
pub fn access_cases()
    ensures { AccessCases }
{}

/// The parts of a read in each zone that it touches.
pub fn pieces_case()
    ensures { PiecesCase }
{}

/// Data, and option texts.
pub fn text_cases()
    ensures { TextCases }
{}
