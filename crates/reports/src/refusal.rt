//! What every refusal tells.

ghost use Rattle.std.specs.Prelude.{◌≡◌};
ghost use Rattle.reports.specs.declared.report.Report.{Report};

use crate::report::Report;

/// Why a call did not do what it was asked.
pub trait Refusal: Copy {
    ghost report_of: { Self → Report };

    /// Number, half and place together.
    fn report(self) -> Report
        ensures { result ≡ report_of self };

    /// The number by which the refusal is reported.
    fn number(self) -> u8
        ensures { result ≡ (report_of self).number }
    {
        self.report().number
    }

    /// The half of a frame that the refusal is about, 1 or 2; 0 where it is about none.
    fn half(self) -> u8
        ensures { result ≡ (report_of self).half }
    {
        self.report().half
    }

    /// The place that the refusal is about; 0 where it is about none.
    fn place(self) -> u8
        ensures { result ≡ (report_of self).place }
    {
        self.report().place
    }
}
