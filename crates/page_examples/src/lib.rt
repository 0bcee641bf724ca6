//! The page by example: what `mdview` prints of texts of each form.
#![tactic(auto)]

#[cfg(test)]
mod answers;
#[cfg(test)]
mod counts;
#[cfg(test)]
mod events;
#[cfg(test)]
mod example;
#[cfg(test)]
mod readme;
#[cfg(test)]
mod runs;
#[cfg(test)]
mod views;
