//! What refusals report.

use reports::{Refusal, Report};

/// What is reported of an answer, where it is a refusal.
pub fn refused<T: Drop, R: Refusal>(answer: Result<T, R>) -> Option<Report> {
    answer.err().map(|refusal| refusal.report())
}
