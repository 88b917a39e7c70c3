// The samples that a visitor has received, for proofs only: a trail takes no bytes, and its methods do nothing at run
// time.
ghost use Rattle.std.specs.Prelude.{◌≡◌, List, [], ◌∷◌, ◌++◌};
ghost use Rattle.std.specs.Borrow.{ftrue};
ghost use Rattle.ts_spec.specs.Sample.{Point};

use std::marker::Model;
use ts_sample::Sample;

#[derive(Drop)]
pub(crate) struct Trail {
    pub(crate) ghost points: { List Point },
}

impl Model for Trail {
    ghost also_owns = { λ _. ftrue };
}

impl Trail {
    pub(crate) fn new() -> Trail
        ensures { result.points ≡ [] }
    {
        Trail {}
    }

    // The same samples and one more.
    #[inline(always)]
    pub(crate) fn with(_before: &Trail, _sample: &Sample) -> Trail
        ensures { result.points ≡ _before.now.points ++ _sample.now ∷ [] }
    {
        Trail {}
    }
}
