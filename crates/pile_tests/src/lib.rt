// Worked behaviour of piles of two chips and of three: scripts of calls with their replies, lines that are taken by rank, and
// parts that do not fit.
#![tactic(auto)]

#[cfg(test)]
mod misfits;
#[cfg(test)]
mod nested;
#[cfg(test)]
mod old_unit;
#[cfg(test)]
mod script;
