//! Tests on jobs.
ghost use Rattle.std.specs.Prelude.{◌≡◌, Bool, true};

use std::marker::Brand;

/// A name that stands for a test on jobs: those that meet it are counted. It is known to contracts alone,
/// and a caller that passes [`Brand`] picks it.
pub trait Test<J> {
    ghost meets: { J → Bool };
}

impl<J> Test<J> for Brand {
    ghost meets = { λ j. true };
}

/// A test on jobs that runs, once for each put and each take.
pub trait Check<J> {
    ghost says: { Self → J → Bool };

    /// Whether a job meets the test.
    fn meets(&self, job: &J) -> bool
        ensures { result ≡ says self.now job.now };
}

/// The test that every job meets.
#[derive(Clone, Copy, Debug, PartialEq, Eq)]
pub struct Every;

impl<J> Test<J> for Every {
    ghost meets = { λ j. true };
}

impl<J> Check<J> for Every {
    ghost says = { λ c j. true };

    fn meets(&self, _job: &J) -> bool {
        true
    }
}
