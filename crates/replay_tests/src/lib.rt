// Replays on the old unit: logs of every length, traces cut anywhere, bad maps, refused acts, two units that tell the same,
// printed lines.
#![tactic(auto)]

#[cfg(test)]
mod both;
#[cfg(test)]
mod faults;
#[cfg(test)]
mod printed;
#[cfg(test)]
mod runs;
#[cfg(test)]
mod turned;
