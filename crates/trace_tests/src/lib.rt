// Traces as tests run them: every map, the refusals of the writer, a trace cut and spoilt anywhere, the acts in order and as
// they are printed. The format is written down once more, as rules and tables that the crate is held against.
#![tactic(auto)]

#[cfg(test)]
mod acts;
#[cfg(test)]
mod cuts;
#[cfg(test)]
mod format;
#[cfg(test)]
mod maps;
#[cfg(test)]
mod refusals;
