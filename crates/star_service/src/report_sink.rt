// Indexes that keep reports.

ghost use Rattle.std.specs.Prelude.{ℕ, List, Option, None, IfErr, OnOk};
ghost use Rattle.star_common.specs.Memory.{TellsMemory};
ghost use Rattle.star_service.specs.{ReportSinks.HasStored, ReportSinks.IsStoreError, ReportSinks.StoredReport, ReportSinks.sink_change, declared.report_sink.ReportSinkFault.TheVariants.OutOfMemory};

use std::alloc::{AllocError, Global};

/// A report was not kept.
#[derive(Clone, Copy, Debug, PartialEq, Eq)]
pub enum ReportSinkFault {
    /// Memory was refused.
    OutOfMemory,
    /// A write failed, `sent` bytes into the report.
    Write { sent: u64 },
}

impl From<AllocError> for ReportSinkFault {
    ghost from_gives = { TellsMemory OutOfMemory };

    fn from(_error: AllocError) -> ReportSinkFault {
        ReportSinkFault::OutOfMemory
    }
}

// A report sink keeps how far the report came whose write failed: else a body that reports a
// failed write without any would meet the contract.
/// A position that keeps reports, each under a name of its own.
pub trait ReportSink {
    // The reports that were kept, in order, if they are known.
    ghost reports: { Self → Option (List StoredReport) };

    // How many bytes of the last report were sent, if a write of it failed.
    ghost failed_at: { Self → Option ℕ };

    /// Keeps a whole report under a name. On `Err` nothing is kept: a write failed, as far into the
    /// report as the error says, or at its end; or memory was refused.
    fn store(&mut self, alloc: Global, name: &str, report: &[u8]) -> Result<(), ReportSinkFault>
        ensures stored { OnOk result
            (HasStored (sink_change reports failed_at self.old self.new) name.now report.now) }
        ensures not_stored { IfErr result
            (IsStoreError (sink_change reports failed_at self.old self.new) report.now) };
}
