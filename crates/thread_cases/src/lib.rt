//! Slices of search in a shared session over a small universe, worked out by hand, and threads that wait for each other there.
#![tactic(auto)]

#[cfg(test)]
mod beside;
#[cfg(test)]
mod meeting;
#[cfg(test)]
mod mid_step;
#[cfg(test)]
mod sharing;
#[cfg(test)]
mod slices;
