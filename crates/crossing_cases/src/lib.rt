// Worked cases of crossing, run as tests. They stand apart, so that the layer is proved without them.
#![tactic(auto)]

#[cfg(test)]
mod matrices;
#[cfg(test)]
mod over_fields;
