// What a record asks for.
ghost use Rattle.std.specs.Prelude.{◌≡◌};
ghost use Rattle.rules.specs.Records.{asked};
ghost use Rattle.chooser.specs.Requests.{call_asked, call_of, turned};

use rules::Request;

// A call, with what it is about.
#[derive(Clone, Copy)]
pub(crate) enum Call {
    Change(u8, i32),
    Clear,
    Search,
    Run(i32),
    Close,
}

// The call that a request is for: none where the code isn't 1 to 5, or a part that the code does not use isn't 0.
#[tactic(auto, unfolding(rules::specs::Records::asked))]
pub(crate) fn asked_for(request: Request) -> Option<Call>
    ensures { call_asked result ≡ asked request }
{
    let Request { code, row, number } = request;
    match (code, row, number) {
        (1, _, _) => Some(Call::Change(row, number)),
        (2, 0, 0) => Some(Call::Clear),
        (3, 0, 0) => Some(Call::Search),
        (4, 0, _) => Some(Call::Run(number)),
        (5, 0, 0) => Some(Call::Close),
        _ => None,
    }
}

impl Call {
    // Whether a search is running after the call, whatever it is answered: a search begins one, a close ends it.
    pub(crate) fn turned(self, running: bool) -> bool
        ensures { result ≡ turned running (call_of self) }
    {
        match self {
            Call::Search => true,
            Call::Close => false,
            Call::Change(..) | Call::Clear | Call::Run(_) => running,
        }
    }
}
