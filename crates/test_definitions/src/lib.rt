//! Tests of the definitions that contracts cite, as equations: each cause of a refusal in its place, each row of the
//! tables, each limit from both sides, and each event that isn't possible; and the texts of values, messages, records
//! and faults. There is no code here: the equations are in `proofs/`.
#![tactic(auto)]
