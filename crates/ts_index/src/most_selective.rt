// Finds the most selective filter.
ghost use Rattle.std.specs.Prelude.{◌≡◌, ◌<◌, ◌^◌, true, ◌∷◌, ◌++◌, [], List, length, option_map, IfSome, IfNone};
ghost use Rattle.ts_spec.specs.Filter.{Filter as Asked, is_positive};
ghost use Rattle.ts_index.specs.Bounds.{candidates, fewest};
ghost use Rattle.ts_index.specs.MostSelective.{IsBest, IsMostSelective};

use crate::index::Index;
use ts_labels::Filter;

impl Index {
    // The number of series in the index.
    pub(crate) fn len(&self) -> usize
        ensures len { result ≡ length self.now }
        ensures small { result < 2 ^ 63 }
    {
        self.labels.len()
    }

    // The number of candidates of a filter that requires a value.
    fn candidate_count(&self, filter: &Filter) -> usize
        requires { is_positive filter.now ≡ true }
        ensures { result ≡ candidates self.now filter.now }
    {
        let _all = self.len();
        let label = filter.label();
        let values = filter.values();
        let mut count = 0;
        for value in values {
            count += self.posting(label, value).len();
        }
        count
    }

    // The filter with the fewest candidates, among those that require a value.
    pub(crate) fn most_selective<'a>(&self, filters: &'a [Filter]) -> Option<&'a Filter>
        ensures most_selective { IfSome result (λ filter. IsMostSelective self.now filters.now filter.now) }
        ensures none { IfNone result (fewest self.now filters.now ≡ length self.now) }
    {
        let mut best = None;
        for filter in filters {
            best = self.more_selective(best, filter);
        }
        match best {
            Some((filter, _)) => Some(filter),
            None => None,
        }
    }

    // The number of candidates of the most selective filter, or the number of series.
    pub(crate) fn fewest(&self, filters: &[Filter]) -> usize
        ensures { result ≡ fewest self.now filters.now }
    {
        match self.most_selective(filters) {
            Some(filter) => self.candidate_count(filter),
            None => self.len(),
        }
    }

    // The more selective of the best filter so far and another one, with its number of candidates.
    fn more_selective<'a>(
        &self,
        best: Option<(&'a Filter, usize)>,
        filter: &'a Filter,
    ) -> Option<(&'a Filter, usize)>
        ensures { (done : List Asked) → IsBest self.now done (option_map (λ b. (b.0.now, b.1)) best.entry)
            → IsBest self.now (done ++ filter.now ∷ []) (option_map (λ b. (b.0.now, b.1)) result) }
    {
        if !filter.is_positive() {
            return best;
        }
        let count = self.candidate_count(filter);
        let Some((_, least)) = best else {
            return Some((filter, count));
        };
        if least <= count {
            return best;
        }
        Some((filter, count))
    }
}
