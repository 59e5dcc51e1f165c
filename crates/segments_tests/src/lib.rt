// Examples of walked segment lists: their figures, and each refusal on both sides of its limit.
#![tactic(auto)]

#[cfg(test)]
mod nets;
#[cfg(test)]
mod refusals;
#[cfg(test)]
mod walks;
