// The dispatcher as tests run it: claims in the hands of handlers, the deepest nest, random calls on every kind of unit and
// against a plain model, and an END as it is printed.
#![tactic(auto)]

#[cfg(test)]
mod balance;
#[cfg(test)]
mod calls;
#[cfg(test)]
mod claims;
#[cfg(test)]
mod counted;
#[cfg(test)]
mod model;
#[cfg(test)]
mod nesting;
#[cfg(test)]
mod printed;
#[cfg(test)]
mod random;
#[cfg(test)]
mod spend;
