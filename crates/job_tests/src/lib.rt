//! Tests of `ctl_serve` and `ctl_run` through their public calls.
#![tactic(auto)]

#[cfg(test)]
mod jobs;
#[cfg(test)]
mod texts;
