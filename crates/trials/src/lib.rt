#![tactic(auto)]

// Examples of what a workspace takes, refuses and finds; each is proved, and then run. Nothing outside uses this crate.
// The runtime, a workspace and its words stay three parameters: a struct of them would hold two `&mut`, made for each call and taken apart in it.

#[cfg(test)]
mod arguments;
#[cfg(test)]
mod bench;
#[cfg(test)]
mod boundaries;
#[cfg(test)]
mod closing;
#[cfg(test)]
mod forms;
#[cfg(test)]
mod lengths;
#[cfg(test)]
mod masks;
#[cfg(test)]
mod products;
#[cfg(test)]
mod releases;
#[cfg(test)]
mod results;
#[cfg(test)]
mod strikes;
