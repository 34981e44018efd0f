// The page of help, and the line that tells how a subcommand is called.
use answering::Job;
use std::io;
use std::io::Write;

pub(crate) fn tell_help<O: Write>(out: &mut O) -> io::Result<()> {
    out.write_all(
        b"grackle: netlists for spare control cards, checked, listed and tried\n\n  grackle check FILE..             for each file a line: good, or why not\n  grackle print FILE               the netlist in its one printed form\n  grackle list FILE                the load list, a line of hex for each record\n  grackle load FILE                the load list itself, as bytes\n  grackle eval [--bits] FILE BITS  the outputs of the netlist for these inputs\n  grackle run LIST BITS            the outputs of a load list for these inputs\n",
    )?;
    out.write_all(
        b"  grackle names FILE               the full name of each ident\n  grackle pads FILE                each pad with its width in bits\n  grackle pad FILE NAME            the width of one pad\n  grackle help                     this page\n\nFILE is a netlist, LIST what `load` writes; `-` is standard input.\nBITS are 0, 1 or X (not known): the first input's first, each from bit 0 up.\nOutputs are told in the same order, with their names; --bits leaves these out.\nA refusal has a number, the byte where it is found (from 0), and its ground.\n",
    )
}

fn usage<E: Write>(err: &mut E, line: &[u8]) -> io::Result<()> {
    err.write_all(b"usage: grackle ")?;
    err.write_all(line)?;
    err.write_all(b"   (`grackle help` tells more)\n")
}

pub(crate) fn tell_unknown<E: Write>(err: &mut E) -> io::Result<()> {
    usage(
        err,
        b"check|print|list|load|eval|run|names|pads|pad|help ..",
    )
}

pub(crate) fn tell_usage<E: Write>(err: &mut E, job: Job) -> io::Result<()> {
    match job {
        Job::Check => usage(err, b"check FILE.."),
        Job::Print => usage(err, b"print FILE"),
        Job::List => usage(err, b"list FILE"),
        Job::Load => usage(err, b"load FILE"),
        Job::Run => usage(err, b"run LIST BITS"),
        Job::Names => usage(err, b"names FILE"),
        Job::Pads => usage(err, b"pads FILE"),
        Job::Pad => usage(err, b"pad FILE NAME"),
        _ => usage(err, b"eval [--bits] FILE BITS"),
    }
}
