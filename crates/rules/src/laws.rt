// What is proved of the rules: each function has a theorem for its contract, and answers nothing.
ghost use Rattle.rules.specs.Examples.{ExamplesHold};
ghost use Rattle.rules.specs.Theorems.{StepLaw, CallLaw, HistoryLaw, GroundLaw, LearningLaw, CountLaw, OpeningLaw, RefusalLaw, PromiseLaw, RecordLaw};

// At every state the rules name one outcome, which `next` works out.
pub fn step_law()
    ensures { StepLaw }
{}

// Every call has one answer and leaves the job in one way, which `reply` works out.
pub fn call_law()
    ensures { CallLaw }
{}

// A call that is refused alters nothing.
pub fn refusal_law()
    ensures { RefusalLaw }
{}

// Every list of calls on an opened job has one history.
pub fn history_law()
    ensures { HistoryLaw }
{}

// A ground that can be learned is true at every list of limits.
pub fn ground_law()
    ensures { GroundLaw }
{}

// A learned ground has in it what the rules say.
pub fn learning_law()
    ensures { LearningLaw }
{}

// There are as many part-choices as are counted.
pub fn count_law()
    ensures { CountLaw }
{}

// An opening finds no fault exactly when there is none, and else that of the first test that fails.
pub fn opening_law()
    ensures { OpeningLaw }
{}

// At every time of every history of calls, what is promised holds.
pub fn promise_law()
    ensures { PromiseLaw }
{}

// What is worked out for a sheet, a catalogue and a list of call records is what the rules say, and right at every time.
pub fn record_law()
    ensures { RecordLaw }
{}

// The rules come to these results on worked examples.
pub fn worked_examples()
    ensures { ExamplesHold }
{}
