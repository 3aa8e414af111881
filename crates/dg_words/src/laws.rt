//! What holds of every task that words say: the function here has an empty body, and its contract states it.
ghost use Rattle.dg_words.specs.Ranges.{NumbersAreInRange};

/// The numbers of a task are in their ranges: at most 16 workers, a cache of 1 to 1,000,000 answers, a size of 1 to
/// 64.
pub fn numbers_are_in_range()
    ensures { NumbersAreInRange }
{}
