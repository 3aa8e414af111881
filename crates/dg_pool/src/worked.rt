//! Worked cases: each function here has an empty body, and its contract states what the definitions give for a
//! pool of one pass. The checker computes them.
ghost use Rattle.std.specs.Prelude.{◌≡◌, [], ◌∷◌, true, false, Ok, Err, Some, None};
ghost use Rattle.dg_pool.specs.declared.refusal.PutRefusal.TheVariants as refusal;
ghost use Rattle.dg_pool.specs.Queues.{PutGives, TakeGives, must_wait, open_queue};
ghost use Rattle.dg_pool.specs.Tallies.{AddsUp, no_acts, sum_of};
ghost use Rattle.dg_pool.specs.Worked.{every, queue, tally};

/// What each call gives: a put, a put that finds the queue closed, a take of the job, and a take that stops.
pub fn gives()
    ensures put { PutGives 5 open_queue (queue (5 ∷ []) false) (Ok tt) }
    ensures closed { PutGives 6 (queue (5 ∷ []) true) (queue (5 ∷ []) true) (Err (refusal.Closed 6)) }
    ensures take { TakeGives (queue (5 ∷ []) true) (queue [] true) (Some 5) }
    ensures stop { TakeGives (queue [] true) (queue [] true) None }
    ensures waits { must_wait (queue [] false) ≡ true }
{}

/// What a queue never gives: a refusal while it is open, a job that is lost, a stop with a job left or while it
/// is open.
pub fn never_gives()
    ensures refused { PutGives 6 (queue [] false) (queue [] false) (Err (refusal.Closed 6)) → ⊥ }
    ensures lost { PutGives 6 (queue [] true) (queue [] true) (Ok tt) → ⊥ }
    ensures left { TakeGives (queue (5 ∷ []) true) (queue (5 ∷ []) true) None → ⊥ }
    ensures stopped { TakeGives (queue [] false) (queue [] false) None → ⊥ }
{}

/// What the passes say together: all jobs taken, one left, and a sum of two passes.
pub fn adds_up()
    ensures all { AddsUp every (tally 1 1 1 1 1) [] }
    ensures one { AddsUp every (tally 2 1 0 0 0) (7 ∷ []) }
    ensures sum { sum_of (tally 2 0 1 0 1 ∷ tally 0 2 0 1 0 ∷ []) ≡ tally 2 2 1 1 1 }
{}

/// What they never say: that a job is lost or was taken twice, that one was refused with no close, that one
/// stopped with no close or with a job left.
pub fn never_adds_up()
    ensures lost { AddsUp every (tally 2 1 0 0 0) [] → ⊥ }
    ensures twice { AddsUp every (tally 1 2 0 0 0) [] → ⊥ }
    ensures refused { AddsUp every (tally 0 0 1 0 0) [] → ⊥ }
    ensures stopped { AddsUp every (tally 0 0 0 1 0) [] → ⊥ }
    ensures left { AddsUp every (tally 1 0 0 1 1) (7 ∷ []) → ⊥ }
{}
