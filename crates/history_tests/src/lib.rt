//! Tests of what is shown of a saved history, by public items only: the ring from event to event, the repairs of its faults, the ring in
//! motion; and of the states after choices.
#![tactic(auto)]

#[cfg(test)]
mod motion;
#[cfg(test)]
mod repairs;
#[cfg(test)]
mod rows;
#[cfg(test)]
mod steps;
