#![tactic(auto)]

// Examples of sheets, read and refused; each is proved, and then run. Nothing outside uses this crate.

#[cfg(test)]
mod reading;
#[cfg(test)]
mod refusals;
#[cfg(test)]
mod whole_sheets;
