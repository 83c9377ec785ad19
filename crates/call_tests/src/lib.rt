//! What no clause of `stations` and `line_sim` says: what losses of a block do, a page through each layer, and a stream at size.
#![tactic(auto)]

#[cfg(test)]
mod losses;
#[cfg(test)]
mod seams;
#[cfg(test)]
mod sizes;
#[cfg(test)]
mod stream;
#[cfg(test)]
mod whole_call;
