//! A ring that is called by numbers: texts that are known beforehand, and each refusal.

mod refusals;
mod scenes;
