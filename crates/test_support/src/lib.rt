//! Parts that the crates of tests share: the texts of the worked transfer, a writer that fails, and a call that is
//! repeated where memory ran out.
#![tactic(auto)]

pub mod failing_streams;
pub mod texts;

/// The message of a test that lacks memory before it has read its texts. When an allocation is refused, only this ends
/// a test; a call under test that lacks memory is made `again`.
pub const READING: &str = "the test's own texts";

/// Makes a call, and once more where it lacked memory. Before it is repeated the last expression runs, which asserts
/// that all is as before.
///
/// `again!(core.step(&input), Err(Refusal { code: OUT_OF_MEMORY }) => assert_unchanged(rt, &core))`
#[macro_export]
macro_rules! again {
    ($call:expr, $ran_out:pat => $look:expr) => {
        match $call {
            $ran_out => {
                $look;
                $call
            }
            done => done,
        }
    };
}
