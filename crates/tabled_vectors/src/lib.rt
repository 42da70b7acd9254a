//! Worked tables, values and pages of the crates below, over their public calls: each expected text is drawn by hand.
#![tactic(auto)]

#[cfg(test)]
mod colored;
#[cfg(test)]
mod colors;
#[cfg(test)]
mod far_places;
#[cfg(test)]
mod levels;
#[cfg(test)]
mod marks;
#[cfg(test)]
mod outlines;
#[cfg(test)]
mod pages;
#[cfg(test)]
mod printing;
#[cfg(test)]
mod settings;
#[cfg(test)]
mod spans;
#[cfg(test)]
mod styles;
#[cfg(test)]
mod tables;
#[cfg(test)]
mod texts;
#[cfg(test)]
mod themes;
