// The law over any walk along touching cells: what is listed at the end is the road of the seed.
#![tactic(auto)]

ghost use Rattle.walk.specs.Law.{WalkLaw};

// Over any cells where touching goes both ways and each crossed cell has a pair: a walk lists only cells on the road of its seed,
// each once, and keeps what it listed. It has ended exactly if its steps are as many as the listed cells have pairs, and then it
// has listed the whole road. Two ended walks of which one listed the seed of the other have listed the same cells in as many steps.
#[tactic(auto, using(crate::proofs::Whole::walk_law))]
pub fn walks_hold<C>()
    ensures { WalkLaw C }
{}
