// The library's calls for programs in other languages. A slice is a pointer and a length, a list of
// fixed size a pointer to that many places. Each call but `pardesul_respond` hands back the refusal
// number, 0 where it is accepted; a refusal leaves lent memory as it was. Numbers, flags and lists
// of fixed size are the forms that C has, so they stay.
#![tactic(auto)]

pub mod back_tests;
pub mod closing;
pub mod costs;
pub mod forecasts;
pub mod journals;
pub mod sets;
pub mod shares;
pub mod windows;
