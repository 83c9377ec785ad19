//! What no clause of `page_files`, `captures` and `calls` says: readers that give octets one by one, and readers and writers that fail.
#![tactic(auto)]

#[cfg(test)]
mod call;
#[cfg(test)]
mod frames;
#[cfg(test)]
mod pages;
#[cfg(test)]
mod sizes;
#[cfg(test)]
mod streams;
