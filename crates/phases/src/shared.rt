// What a loop shares with other threads, as the loop uses it.

ghost use Rattle.std.specs.Prelude.{ℕ, ◌<◌, ◌≤◌};
ghost use Rattle.limits.specs.declared.TheConstants.{MAX_ASYNCS, MAX_REQUESTS, MAX_REQUEST_NUMBER};
ghost use Rattle.phases.specs.Calls.{Calls, OtherCalls, PostCall, IsLawful, AreBeside, PostLeaves};
ghost use Rattle.phases.specs.View.{IsAbove};

/// The claims and the send counts of one loop, as the loop uses them.
///
/// An implementation names, for each call, the relation by which it moves the object, and what the loop knows
/// of it. The law is that each call changes what the loop knows as its answer says.
pub trait Shared {
    ghost calls: { Calls Self };

    /// Opens a request in a slot. Slots are below `MAX_REQUESTS`, requests are 1 to `MAX_REQUEST_NUMBER` and rise.
    fn open(&mut self, slot: u32, request: u32)
        requires slot { slot < MAX_REQUESTS }
        requires request { (0 < request) × (request ≤ MAX_REQUEST_NUMBER) }
        requires rising { IsAbove (calls.view self.old) request }
        ensures { calls.opens self.old slot request self.new };

    /// Cancels a request, and says whether it did.
    fn cancel(&mut self, slot: u32, request: u32) -> bool
        requires { slot < MAX_REQUESTS }
        ensures { calls.cancels self.old slot request result self.new };

    /// Sends from the loop itself to an async; `false` where its sends are used up.
    fn send(&mut self, async_no: u32) -> bool
        requires { async_no < MAX_ASYNCS }
        ensures { calls.sends self.old async_no result self.new };

    /// Takes what was sent to an async, and answers how many sends it was.
    fn take(&mut self, async_no: u32) -> u64
        requires { async_no < MAX_ASYNCS }
        ensures { calls.takes self.old async_no result self.new };

    ghost lawful: { IsLawful calls };
}

/// What a worker and other threads do to the shared object, where all stands in one thread.
pub trait Beside: Shared {
    ghost others: { OtherCalls Self };

    /// A worker's start of a request; whether it is started by this call.
    fn start(&mut self, slot: u32, request: u32) -> bool
        requires { slot < MAX_REQUESTS }
        ensures { others.starts self.old slot request result self.new };

    /// Another's send to an async.
    fn sent(&mut self, async_no: u32) -> bool
        requires { async_no < MAX_ASYNCS }
        ensures { others.gets self.old async_no result self.new };

    ghost beside: { AreBeside Self.calls others };
}

/// An object whose requests can be started only once they are posted.
pub trait Posting: Shared {
    ghost posts: { PostCall Self };

    /// Posts a request, whose order was handed out. Whether it is posted by this call. Requests are numbered from 1.
    fn post(&mut self, slot: u32, request: u32) -> bool
        requires slot { slot < MAX_REQUESTS }
        requires request { 0 < request }
        ensures { posts self.old slot request result self.new };

    ghost leaves: { PostLeaves Self.calls posts };
}
