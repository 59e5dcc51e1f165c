// Examples of maps: each refusal on both sides of its limit, changes, round trips and listings.
#![tactic(auto)]

#[cfg(test)]
mod images;
#[cfg(test)]
mod records;
#[cfg(test)]
mod samples;
#[cfg(test)]
mod texts;
