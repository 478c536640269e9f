// Worked cases of tracing, run as tests. They stand apart, so that the layer is proved without them.
#![tactic(auto)]

#[cfg(test)]
mod lists;
#[cfg(test)]
mod planting;
#[cfg(test)]
mod refusals;
#[cfg(test)]
mod roads;
#[cfg(test)]
mod sealing;
#[cfg(test)]
mod setting;
#[cfg(test)]
mod worked;
