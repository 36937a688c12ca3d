// Encoding and back. The questions are those of `encodings`.
use crate::models::{Asked, answers};
use std::test::Fail;

/// A task, and as few true tasks as possible. The problem has a variable for the task and one for the
/// objective, which rows make equal.
const ONE: &str = "cgm 1\ntask T\nobjective min sat_tasks\n";

const QUESTIONS: &str =
    "extended 1 - - = 1,1; extended 0 - - = 0,0; decoded 1,1 = 1 - -; decoded 0,0 = 0 - -";

#[test]
fn extended_and_decoded_on_one(rt: HostRuntime) -> Result<(), Fail> {
    answers(&rt, rt.alloc(), ONE, &Asked::Encoded(QUESTIONS))
}
