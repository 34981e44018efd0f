// What the arguments ask for.
use crate::arguments::put_arg;
use answering::Job;
use std::rt::Env;

#[derive(Clone, Copy)]
pub enum Command {
    Help,
    Unknown,
    Of(Job),
}

fn command_named(word: &[u8]) -> Command {
    match word {
        b"check" => Command::Of(Job::Check),
        b"print" => Command::Of(Job::Print),
        b"list" => Command::Of(Job::List),
        b"load" => Command::Of(Job::Load),
        b"eval" => Command::Of(Job::Eval),
        b"run" => Command::Of(Job::Run),
        b"names" => Command::Of(Job::Names),
        b"pads" => Command::Of(Job::Pads),
        b"pad" => Command::Of(Job::Pad),
        b"help" => Command::Help,
        _ => Command::Unknown,
    }
}

// The subcommand that an argument names.
pub(crate) fn command_of<R: Env>(rt: &R, i: usize) -> Command {
    let mut room = [0u8; 16];
    let n = put_arg(rt, i, &mut room);
    command_named(&room[..n])
}
