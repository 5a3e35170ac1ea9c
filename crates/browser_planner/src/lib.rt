//! The calls of the planner in a web page: tests of traces and settings, the plan of a trace, its windows, what a
//! migration with given limits will be, by its plan and like QEMU, how far a sample's draw moves that, how sure it is,
//! what keeps the limit, and which of several starts is the best. A question says whether it goes by a hypervisor's
//! looks or by Clark's rounds.
//!
//! Nothing is allocated: the caller lends the bytes of the trace, room for the call's own work, and slots for what it
//! answers. No call keeps anything between two calls. A call answers 0, or the number of a refusal; if that is not 0,
//! it has written nothing but what its contract names.
//!
//! A WebAssembly module has these calls, and imports nothing. Numbers of refusals, settings, sums and rounds are laid
//! out as in `include/precopy.h`.
#![tactic(auto)]

#[cfg(test)]
mod agreement_tests;
mod agreements;
mod answering;
mod answers;
mod errors;
#[cfg(test)]
mod forecast_tests;
mod forecasts;
mod foretelling;
mod laws;
mod plans;
#[cfg(test)]
mod prediction_tests;
mod remedies;
#[cfg(test)]
mod remedy_tests;
mod settings;
mod starts;
#[cfg(test)]
mod tests;
mod touches;
mod traces;
mod windows;
