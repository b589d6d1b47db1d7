#![tactic(auto)]

// Examples of what the public calls take and refuse; each is proved, and then run. Nothing outside uses this crate.

#[cfg(test)]
mod approvals;
#[cfg(test)]
mod coefficients;
#[cfg(test)]
mod guarded_transforms;
#[cfg(test)]
mod layers;
#[cfg(test)]
mod lengths;
