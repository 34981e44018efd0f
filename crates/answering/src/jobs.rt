// What is asked of a file.
#[derive(Clone, Copy)]
pub enum Job {
    Check,
    Print,
    List,
    Load,
    Eval,
    EvalBits,
    Run,
    Names,
    Pads,
    Pad,
}
