ghost use Rattle.ia32_laws.specs.ActivationsLaws.{DepthCounts, DepthFails, DepthUncounts};
ghost use Rattle.ia32_laws.specs.ActivationsLaws.{PlacesPass, CallGoes, ResumeGoes, ReturnComes, LeaveComes};

/// The depth word counts the calls that are active, up to 4,096; one more fails a check.
pub fn depth_counts_calls()
    ensures counts { DepthCounts }
    ensures fails { DepthFails }
    ensures uncounts { DepthUncounts }
{}

/// The words of places go onto the stack, the last one first; a call of a function comes to its address, with one call
/// more active; and behind it the words come off again, with one less.
pub fn calls_are_made()
    ensures words { PlacesPass }
    ensures call { CallGoes }
    ensures resumes { ResumeGoes }
{}

/// A return comes to the return address with its result, if there is one, in EAX, and with the caller's registers.
pub fn calls_return()
    ensures value { ReturnComes }
    ensures none { LeaveComes }
{}
