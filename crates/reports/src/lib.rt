//! How refusals are reported: by a number, and by the half and the place that they are about.

#![tactic(auto)]

mod refusal;
mod report;

pub use refusal::Refusal;
pub use report::Report;

#[cfg(test)]
mod tests {
    use super::*;
    use std::alloc::Global;
    use std::process::Abort;
    use std::test::Fail;

    #[derive(Clone, Copy)]
    struct Torn;

    impl Refusal for Torn {
        ghost report_of = { λ _. record { number = 40; half = 2; place = 3 } };

        fn report(self) -> Report {
            Report {
                half: 2,
                ..Report::at_place(40, 3)
            }
        }
    }

    #[test]
    fn a_refusal_tells_number_half_and_place(rt: HostRuntime) {
        assert_eq!(rt; (Torn.number(), Torn.half(), Torn.place()), (40, 2, 3));
    }

    // The report is written so.
    fn reads(rt: &impl Abort, heap: Global, report: Report, text: &str) -> Result<(), Fail> {
        let written = format!(in heap; "{report}")?;
        assert_eq!(rt; written.as_str(), text);
        Ok(())
    }

    #[test]
    fn what_a_refusal_is_not_about_is_left_out(rt: HostRuntime) -> Result<(), Fail> {
        let heap = rt.alloc();
        reads(&rt, heap, Report::number_alone(12), "refused with 12")?;
        reads(
            &rt,
            heap,
            Report::in_half(17, 1),
            "refused with 17 in half 1",
        )?;
        reads(
            &rt,
            heap,
            Report::at_place(7, 18),
            "refused with 7 at place 18",
        )?;
        reads(
            &rt,
            heap,
            Torn.report(),
            "refused with 40 in half 2 at place 3",
        )
    }
}
