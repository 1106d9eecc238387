ghost use Rattle.std.specs.Prelude.{◌≡◌, IfSome};
ghost use Rattle.nuc_script.specs.Table.{verb_of, edit_verb, takes, step_verb, operation_verb, other_verb};

/// What the first word of a line says.
#[derive(Clone, Copy, Debug)]
pub(crate) enum Verb {
    Clients,
    Web,
    Edit(EditVerb),
    Step(StepVerb),
    Operation(OperationVerb),
    Sync,
    Fail,
}

/// What an edit does, in a folder or on the web.
#[derive(Clone, Copy, Debug)]
pub(crate) enum EditVerb {
    Mkdir,
    Write,
    Move,
    Remove,
    Bit,
}

/// A step of a client.
#[derive(Clone, Copy, Debug)]
pub(crate) enum StepVerb {
    List,
    Scan,
    Watch,
    Pull,
    Plan,
    Restart,
}

/// A step of an operation.
#[derive(Clone, Copy, Debug)]
pub(crate) enum OperationVerb {
    Start,
    Take,
    Done,
}

impl EditVerb {
    /// How many words stand behind it.
    pub(crate) fn takes(self) -> usize
        ensures { result ≡ takes self }
    {
        match self {
            EditVerb::Mkdir | EditVerb::Remove => 1,
            EditVerb::Write | EditVerb::Move | EditVerb::Bit => 2,
        }
    }
}

pub(crate) fn verb_of(word: &[u8]) -> Option<Verb>
    ensures { result ≡ verb_of word.now }
{
    if let Some(verb) = edit_verb(word) {
        return Some(Verb::Edit(verb));
    }
    if let Some(verb) = step_verb(word) {
        return Some(Verb::Step(verb));
    }
    match operation_verb(word) {
        Some(verb) => Some(Verb::Operation(verb)),
        None => other_verb(word),
    }
}

pub(crate) fn edit_verb(word: &[u8]) -> Option<EditVerb>
    ensures { result ≡ edit_verb word.now }
{
    if word == b"mkdir".as_slice() {
        Some(EditVerb::Mkdir)
    } else if word == b"write".as_slice() {
        Some(EditVerb::Write)
    } else if word == b"move".as_slice() {
        Some(EditVerb::Move)
    } else if word == b"remove".as_slice() {
        Some(EditVerb::Remove)
    } else if word == b"bit".as_slice() {
        Some(EditVerb::Bit)
    } else {
        None
    }
}

fn step_verb(word: &[u8]) -> Option<StepVerb>
    ensures { result ≡ step_verb word.now }
{
    if word == b"list".as_slice() {
        Some(StepVerb::List)
    } else if word == b"scan".as_slice() {
        Some(StepVerb::Scan)
    } else if word == b"watch".as_slice() {
        Some(StepVerb::Watch)
    } else if word == b"pull".as_slice() {
        Some(StepVerb::Pull)
    } else if word == b"plan".as_slice() {
        Some(StepVerb::Plan)
    } else if word == b"restart".as_slice() {
        Some(StepVerb::Restart)
    } else {
        None
    }
}

fn operation_verb(word: &[u8]) -> Option<OperationVerb>
    ensures { result ≡ operation_verb word.now }
{
    if word == b"start".as_slice() {
        Some(OperationVerb::Start)
    } else if word == b"take".as_slice() {
        Some(OperationVerb::Take)
    } else if word == b"done".as_slice() {
        Some(OperationVerb::Done)
    } else {
        None
    }
}

fn other_verb(word: &[u8]) -> Option<Verb>
    ensures { result ≡ other_verb word.now }
{
    if word == b"clients".as_slice() {
        Some(Verb::Clients)
    } else if word == b"web".as_slice() {
        Some(Verb::Web)
    } else if word == b"sync".as_slice() {
        Some(Verb::Sync)
    } else if word == b"fail".as_slice() {
        Some(Verb::Fail)
    } else {
        None
    }
}
