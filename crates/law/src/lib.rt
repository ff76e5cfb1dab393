// The numbers with which calls on a rundown are declined. What each call promises, and the law over every history of
// calls, is stated in specs/: the calls themselves are to come, together with its proof.
#![tactic(auto)]

mod decline;

pub use decline::Decline;
