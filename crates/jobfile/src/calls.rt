// The calls of a job, in the order in which they come.
ghost use Rattle.std.specs.Prelude.{◌≡◌, [], ◌∷◌, ◌++◌, ◌≤◌, MatchResult};
ghost use Rattle.arrayvec.specs.ArrayVec.{array_vec_len};
ghost use Rattle.jobfile.specs.Bounds.{most_calls};

use crate::bounds::MOST_CALLS;
use arrayvec::ArrayVec;
use rules::{Refusal, Request};

// The requests, of which there can be so many.
#[derive(Drop)]
pub struct Calls {
    requests: ArrayVec<Request, MOST_CALLS>,
    ghost few: { array_vec_len requests ≤ most_calls },
}

impl Calls {
    ghost use Rattle.jobfile.specs.CallTables.{calls_of, room_for_call};

    // No call yet.
    pub(crate) fn none() -> Calls
        ensures { calls_of result ≡ [] }
    {
        Calls {
            requests: ArrayVec::new(),
        }
    }

    // The calls.
    pub fn list(&self) -> &[Request]
        ensures { result.now ≡ calls_of self.now }
    {
        self.requests.as_slice()
    }

    // One call more behind the others; nothing is altered where there is no space.
    pub(crate) fn push(&mut self, request: Request) -> Result<(), Refusal>
        ensures told { result ≡ room_for_call (calls_of self.old) }
        ensures calls { MatchResult result (λ _. calls_of self.new ≡ calls_of self.old ++ request ∷ []) (λ _. calls_of self.new ≡ calls_of self.old) }
    {
        self.requests.try_push(request).map_err(|_| Refusal::NoCall)
    }
}
