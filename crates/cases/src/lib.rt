// Worked cases of the layers, run as tests. They stand apart, so that a layer is proved without them.
#![tactic(auto)]

#[cfg(test)]
mod alike;
#[cfg(test)]
mod boxes;
#[cfg(test)]
mod faces;
#[cfg(test)]
mod frames;
#[cfg(test)]
mod heights;
#[cfg(test)]
mod layers;
#[cfg(test)]
mod making;
#[cfg(test)]
mod outcomes;
#[cfg(test)]
mod quadrics;
#[cfg(test)]
mod refusals;
#[cfg(test)]
mod tables;
#[cfg(test)]
mod vertices;
