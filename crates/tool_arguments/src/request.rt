// What a command line asks for.
use crate::machine::Machine;
use crate::values::Value;
use tool_listing::line::View;

// Where bytes come from: a file, by its name, or standard input.
#[derive(Clone, Copy, Debug)]
pub enum Input<'a> {
    Standard,
    File(&'a [u8]),
}

// The file of this name; - is standard input.
impl<'a> From<&'a [u8]> for Input<'a> {
    fn from(name: &'a [u8]) -> Input<'a> {
        match name {
            b"-" => Input::Standard,
            _ => Input::File(name),
        }
    }
}

// Where bytes go to: a file, by its name, or standard output, asked for or because nothing else was.
#[derive(Clone, Copy, Debug)]
pub enum Target<'a> {
    Unasked,
    Standard,
    File(&'a [u8]),
}

// The file of this name; - is standard output.
impl<'a> From<Option<&'a [u8]>> for Target<'a> {
    fn from(name: Option<&'a [u8]>) -> Target<'a> {
        match name {
            None => Target::Unasked,
            Some(b"-") => Target::Standard,
            Some(name) => Target::File(name),
        }
    }
}

// How an annotation is written.
#[derive(Clone, Copy, Debug, PartialEq, Eq)]
pub enum Form {
    Text,
    Bytes,
}

// What is asked of an image.
#[derive(Drop)]
pub enum Task<'a> {
    Read,
    Check,
    Linearize {
        target: Target<'a>,
    },
    Annotate {
        record: usize,
        form: Form,
        target: Target<'a>,
    },
    Dump {
        view: View,
        names: Option<Input<'a>>,
        target: Target<'a>,
    },
    Step {
        machine: Machine,
        store: &'a [u8],
        step: Step<'a>,
    },
}

// What is done with a store.
#[derive(Drop)]
pub enum Step<'a> {
    Start {
        definition: usize,
        values: Vec<Value>,
    },
    Run {
        steps: usize,
        names: Option<Input<'a>>,
    },
    Show {
        names: Option<Input<'a>>,
    },
}

#[derive(Drop)]
pub enum Request<'a> {
    Help,
    Version,
    // The image comes first.
    Of(Input<'a>, Task<'a>),
}

// The same of values that are lent: what is asked of an image ..
#[derive(Clone, Copy)]
pub enum TaskRef<'a> {
    Read,
    Check,
    Linearize {
        target: Target<'a>,
    },
    Annotate {
        record: usize,
        form: Form,
        target: Target<'a>,
    },
    Dump {
        view: View,
        names: Option<Input<'a>>,
        target: Target<'a>,
    },
    Step {
        machine: Machine,
        store: &'a [u8],
        step: StepRef<'a>,
    },
}

// .. and of a store ..
#[derive(Clone, Copy)]
pub enum StepRef<'a> {
    Start {
        definition: usize,
        values: &'a [Value],
    },
    Run {
        steps: usize,
        names: Option<Input<'a>>,
    },
    Show {
        names: Option<Input<'a>>,
    },
}

// .. and by a command line.
#[derive(Clone, Copy)]
pub enum RequestRef<'a> {
    Help,
    Version,
    // The image comes first.
    Of(Input<'a>, TaskRef<'a>),
}
